// Which call of the desk a line is, and what it holds. The line is the one that starts at an offset of the input.
ghost use Rattle.std.specs.Prelude.{◌≡◌};
ghost use Rattle.library_lines.specs.Calls as the;

use crate::given::FOUR_BYTES;
use condition_words::cut;
use line_fields::fields::after_tab;
use line_fields::numbers::read;
use timetable::fields::{field, has_field};
use timetable::lines::line_end;

// The calls of the desk. The condition of `Open` stays in the line.
#[derive(Clone, Copy)]
pub enum DeskCall {
    Turn,
    Open,
    Close(u32),
}

// The line that starts at an offset.
pub fn line_at(input: &[u8], at: usize) -> &[u8]
    ensures { result.now ≡ the.line_from input.now at }
{
    cut(input, at, line_end(input, at))
}

// `turn` stands alone, `open` has a text after it, and `close` one number.
#[tactic(auto, using(condition_words::proofs::Literals::literals), unfolding(crate::specs::Calls::call_by, condition_words::specs::Words::same, basis::specs::Choice::both))]
fn call_in(line: &[u8]) -> Option<DeskCall>
    ensures { result ≡ the.call_in line.now }
{
    match field(line, 1) {
        b"turn" if !has_field(line, 2) => Some(DeskCall::Turn),
        b"open" if has_field(line, 2) => Some(DeskCall::Open),
        b"close" if !has_field(line, 3) => {
            let ticket = read(field(line, 2), FOUR_BYTES)?;
            Some(DeskCall::Close(ticket as u32))
        }
        _ => None,
    }
}

// Which of the desk's calls a line is, `turn`, `open→TEXT` or `close→N`; None for a line that is none of them.
pub fn call_at(input: &[u8], at: usize) -> Option<DeskCall>
    ensures { result ≡ the.call_at input.now at }
{
    call_in(line_at(input, at))
}

// The condition of `open→TEXT`.
pub fn condition_at(input: &[u8], at: usize) -> &[u8]
    ensures { result.now ≡ the.condition_at input.now at }
{
    after_tab(line_at(input, at))
}

fn ticket_in(line: &[u8]) -> u32
    ensures { result ≡ the.ticket_in line.now }
{
    read(field(line, 2), FOUR_BYTES).map_or(0, |ticket| ticket as u32)
}

// The ticket of `close→N`, and of any other line the number in its second field; 0 where that is no number.
pub fn ticket_at(input: &[u8], at: usize) -> u32
    ensures { result ≡ the.ticket_at input.now at }
{
    ticket_in(line_at(input, at))
}
