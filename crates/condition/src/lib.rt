// Conditions: which texts are accepted, and the result of a condition at a row (document 01, "Conditions"; document 02, b).
#![tactic(auto)]

ghost use Rattle.std.specs.Prelude.{◌≡◌};
ghost use Rattle.basis.specs.Answer.{gives, only_number, refuses};
ghost use Rattle.timetable.specs.Rows.{row_with};
ghost use Rattle.condition_readers.specs.Meaning as meaning;
ghost use Rattle.condition.specs.Condition.{checked, check_of, result_at, result_of, judged, result_said, by_kinds};
ghost use Rattle.condition.specs.Condition as its;
ghost use Rattle.condition.specs.Carried as the;

use condition_depth::too_deep;
use condition_givens::{Given, Mode, RowTexts};
use condition_parts::Part;
use condition_sorts::Sort;
use value::{Offset, Refusal};
use value_instants::ticks;

// What a condition says of a row.
#[derive(Clone, Copy)]
pub enum Judged {
    Hit,
    Miss,
    Unreadable(Refusal),
}

// The least and the greatest length of a condition's text.
const MIN_LENGTH: usize = 1;

pub const MAX_LENGTH: usize = condition_readers::MAX_LENGTH;

fn refused(number: u8) -> Result<(), Refusal>
    ensures { checked result ≡ refuses number }
{
    Err(Refusal::numbered(number))
}

// What the kinds say: a whole condition is a truth value.
fn kinds(sort: Sort) -> Result<(), Refusal>
    ensures { checked result ≡ by_kinds sort }
{
    match sort {
        Sort::Clash => refused(Refusal::WRONG_KIND),
        Sort::Truth => Ok(()),
        Sort::Of(_) => refused(Refusal::WRONG_KIND),
    }
}

// What the literals say: the number of the leftmost bad one.
fn literals(given: Given) -> Result<(), Refusal>
    ensures { checked result ≡ the.literals given }
{
    match given {
        Given::Nothing => Ok(()),
        Given::Is(_) => Ok(()),
        Given::Truth(_) => Ok(()),
        Given::Refused(r) => Err(r),
    }
}

// Kinds come before literals.
#[tactic(auto, unfolding(condition_readers::specs::Meaning::first))]
fn check_part(part: Part) -> Result<(), Refusal>
    ensures { checked result ≡ meaning.first (by_kinds part.sort) (the.literals part.given) }
{
    kinds(part.sort)?;
    literals(part.given)
}

// Open's checks of a condition: 7 by length, 8, 7 by grammar, 9, the leftmost bad literal's own number. Neither row nor zone matters.
pub fn check(text: &[u8]) -> Result<(), Refusal>
    ensures { checked result ≡ check_of text.now }
{
    if text.len() < MIN_LENGTH {
        return refused(Refusal::BAD_CONDITION);
    }
    if MAX_LENGTH < text.len() {
        return refused(Refusal::BAD_CONDITION);
    }
    if too_deep(text) {
        return refused(Refusal::TOO_DEEP);
    }
    let no_row = RowTexts {
        line: b"",
        made: b"",
    };
    match condition_readers::whole(text, no_row, Mode::Check, ticks::utc()) {
        None => refused(Refusal::BAD_CONDITION),
        Some(read) => check_part(read.part),
    }
}

fn unreadable(number: u8) -> Judged
    ensures { judged result ≡ its.unreadable (only_number number) }
{
    Judged::Unreadable(Refusal::numbered(number))
}

// What an evaluated condition says of its row.
fn judged_of(given: Given) -> Judged
    ensures { judged result ≡ the.resulting given }
{
    match given {
        Given::Nothing => unreadable(Refusal::WRONG_KIND),
        Given::Is(_) => unreadable(Refusal::WRONG_KIND),
        Given::Truth(x) => {
            if x {
                return Judged::Hit;
            }
            Judged::Miss
        }
        Given::Refused(r) => Judged::Unreadable(r),
    }
}

// The result of a condition that was accepted before, at a row (a line with a made text beside it) and in a zone: none of Open's checks is
// made again. A text that is no condition by its length, depth or grammar is Unreadable with 7.
pub fn judge(text: &[u8], line: &[u8], made: &[u8], zone: Offset) -> Judged
    ensures { judged result ≡ result_at zone text.now (row_with line.now made.now) }
{
    match condition_readers::whole(text, RowTexts { line, made }, Mode::Live, zone) {
        None => unreadable(Refusal::BAD_CONDITION),
        Some(read) => judged_of(read.part.given),
    }
}

// The result of any text at any line as it stands, in UTC; Open's number for a text that is not accepted.
pub fn result(text: &[u8], line: &[u8]) -> Result<Judged, Refusal>
    ensures { result_said result ≡ result_of text.now line.now }
{
    check(text)?;
    Ok(judge(text, line, &line[0..0], ticks::utc()))
}
