// What a part of a condition gives, and what a literal and a field of a row give, checked or evaluated (document 01,
// "Conditions").
#![tactic(auto)]

ghost use Rattle.std.specs.Prelude.{◌≡◌};
ghost use Rattle.value.specs.Kinds.{meaning};
ghost use Rattle.basis.specs.Answer.{refuses};
ghost use Rattle.text.specs.Reading.{read_as};
ghost use Rattle.condition_words.specs.Words.{between};
ghost use Rattle.timetable.specs.Rows.{row_with};
ghost use Rattle.text_fields.specs.Fields.{read_field};
ghost use Rattle.condition_givens.specs.Data as its;
ghost use Rattle.condition_givens.specs.Carried as the;

use condition_words::cut;
use value::{Kind, Refusal, Value};

// What a part gives: nothing where it is not evaluated, a value, a truth value, or the first refusal.
#[derive(Clone, Copy)]
pub enum Given {
    Nothing,
    Is(Value),
    Truth(bool),
    Refused(Refusal),
}

// How a part is read: its literals are checked, it is evaluated, or it is only read over.
#[derive(Clone, Copy)]
pub enum Mode {
    Check,
    Live,
    Dead,
}

// A row: a line, and beside it a made text, which is that of its second field; empty for none.
#[derive(Clone, Copy)]
pub struct RowTexts<'a> {
    pub line: &'a [u8],
    pub made: &'a [u8],
}

// A refusal.
pub fn refused(number: u8) -> Given
    ensures { result ≡ the.given_of (refuses number) }
{
    Given::Refused(Refusal::numbered(number))
}

// A value that was answered.
pub fn valued(a: Result<Value, Refusal>) -> Given
    ensures { result ≡ the.given_of (its.valued (meaning a)) }
{
    match a {
        Ok(v) => Given::Is(v),
        Err(r) => Given::Refused(r),
    }
}

// The refusal of a text that is only checked.
fn bad(a: Result<Value, Refusal>) -> Given
    ensures { result ≡ the.bad_of (meaning a) }
{
    match a {
        Ok(_) => Given::Nothing,
        Err(r) => Given::Refused(r),
    }
}

// The literal between two offsets of a condition's text.
pub fn literal(mode: Mode, kind: Kind, s: &[u8], from: usize, to: usize) -> Given
    ensures { result ≡ the.given_of_text mode (read_as kind (between s.now from to)) }
{
    match mode {
        Mode::Check => bad(text::read(kind, cut(s, from, to))),
        Mode::Live => valued(text::read(kind, cut(s, from, to))),
        Mode::Dead => Given::Nothing,
    }
}

// The n-th field of a row.
pub fn field(mode: Mode, kind: Kind, row: RowTexts, n: usize) -> Given
    ensures { result ≡ the.field_in mode (read_field kind (row_with row.entry.line.now row.entry.made.now) n) }
{
    match mode {
        Mode::Live => valued(text_fields::read(kind, row.line, n, row.made)),
        Mode::Check | Mode::Dead => Given::Nothing,
    }
}
