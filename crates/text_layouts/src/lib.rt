// Dates, times and dateTimes from text and to text, by the layout of their kind.
#![tactic(auto)]

ghost use Rattle.std.specs.Prelude.{◌≡◌, true};
ghost use Rattle.value.specs.Values.{ok_time_part};
ghost use Rattle.value.specs.Kinds.{meaning};
ghost use Rattle.text_layouts.specs.Reading.{read_layout};
ghost use Rattle.text_layouts.specs.Writing.{kind_text};

use numerals::ValueText;
use value::{DateTime, Kind, Refusal, Value};

mod writing; // writing.rt: the parts of a record as text

// What a text of a kind reads as. The durations have no layout, so that for their kinds every text is refused with 1.
pub fn read_layout(kind: Kind, s: &[u8]) -> Result<Value, Refusal>
    ensures { meaning result ≡ read_layout kind s.now }
{
    if !value::kinds::is_moment(kind) {
        return Err(Refusal::numbered(Refusal::BAD_TEXT));
    }
    text_checks::judged(kind, s.len(), text_scan::parts_of(kind, s))
}

// The text of a record as a value of a kind: what the parts of its layout say of the record. The durations have none.
pub fn layout_text(kind: Kind, d: DateTime) -> ValueText
    requires { ok_time_part d ≡ true }
    ensures { result ≡ kind_text kind d }
{
    writing::parts(value::kinds::layout(kind), d)
}
