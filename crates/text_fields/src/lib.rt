// A field of a row, read as a kind (document 01, "Conditions"; document 02, b). In code a row is a line with a made text beside it: the
// text of its second field, empty for none. No line is copied.
#![tactic(auto)]

ghost use Rattle.std.specs.Prelude.{◌≡◌};
ghost use Rattle.value.specs.Kinds.{meaning};
ghost use Rattle.timetable.specs.Rows.{row_with};
ghost use Rattle.text_fields.specs.Fields.{read_field};

use value::{Kind, Refusal, Value};

const SECOND: usize = 2;

// The n-th field of the row, read as a kind; 6 where the row has none.
pub fn read(kind: Kind, line: &[u8], n: usize, made: &[u8]) -> Result<Value, Refusal>
    ensures { meaning result ≡ read_field kind (row_with line.now made.now) n }
{
    let Some(ends) = timetable::fields::find(line, n) else {
        return Err(Refusal::numbered(Refusal::NO_FIELD));
    };
    if n == SECOND && !made.is_empty() {
        return text::read(kind, made);
    }
    text::read(kind, &line[ends.start..ends.end])
}
