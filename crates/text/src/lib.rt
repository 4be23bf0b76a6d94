// Values from text and to text: the two calls of document 01 over the five kinds.
#![tactic(auto)]

ghost use Rattle.std.specs.Prelude.{◌≡◌, true, length};
ghost use Rattle.basis.specs.Answer.{refuses};
ghost use Rattle.value.specs.Kinds as kinds;
ghost use Rattle.text.specs.Reading.{read_bare, read_as};
ghost use Rattle.text.specs.Writing as its;

use numerals::ValueText;
use value::{Kind, Refusal, Value};

// What the bytes of a value of a kind read as; a blank among them is a byte like any other.
fn read_bare(kind: Kind, s: &[u8]) -> Result<Value, Refusal>
    ensures { kinds.meaning result ≡ read_bare kind s.now }
{
    if value::kinds::is_moment(kind) {
        return text_layouts::read_layout(kind, s);
    }
    let r = text_durations::read(kind, s);
    let outcome = r.outcome;
    outcome
}

// What a text of a kind reads as. The text is the whole field or literal, with the blanks round the value.
pub fn read(kind: Kind, s: &[u8]) -> Result<Value, Refusal>
    ensures { kinds.meaning result ≡ read_as kind s.now }
{
    let ends = text_blanks::strip(s);
    let start = ends.start;
    let end = ends.end;
    read_bare(kind, &s[start..end])
}

pub fn text_of(v: Value) -> ValueText
    requires { kinds.ok_value v ≡ true }
    ensures { result ≡ its.text_of v }
{
    match v {
        Value::Moment(kind, d) => text_layouts::layout_text(kind, d),
        Value::DayTime(_) | Value::YearMonth(_) => text_durations::text_of(v),
    }
}

fn refused(number: u8) -> Result<usize, Refusal>
    ensures { its.written_meaning result ≡ refuses number }
{
    Err(Refusal::numbered(number))
}

// The text of a value at the start of a lent room.
pub fn write(v: Value, room: &mut [u8]) -> Result<usize, Refusal>
    ensures result_value { its.written_meaning result ≡ its.written v (length room.old) }
    ensures room_after { room.new ≡ its.after_write v room.old }
{
    if !value::valid::value_ok(v) {
        return refused(Refusal::OUTSIDE);
    }
    let text = text_of(v);
    let bytes = text.as_slice();
    let n = bytes.len();
    if room.len() < n {
        return refused(Refusal::NO_ROOM);
    }
    room[..n].copy_from_slice(bytes);
    Ok(n)
}
