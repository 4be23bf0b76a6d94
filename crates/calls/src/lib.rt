// One library call as a line of text, and the text of its answer (docs/LINES.md, "The calculator").
#![tactic(auto)]

ghost use Rattle.std.specs.Prelude.{◌≡◌, leb, length};
ghost use Rattle.calls.specs.Answers as the;
ghost use Rattle.calls_asked.specs.declared.CallForm.TheVariants as F;

use calls_asked::{CallForm, One, Two, forms};
use calls_replies::Reply;
use timetable::fields::field;
use value::{Kind, Refusal};

mod calling; // calling.rt: the call on the values that were read

// An input has at most so many bytes.
pub const MAX_INPUT: usize = 65_536;

fn one_call(line: &[u8], o: One, k: Kind) -> Reply
    ensures { result ≡ the.answer_by line.now (F.OfOne o k) }
{
    match text::read(k, field(line, 3)) {
        Err(r) => calling::refused(r),
        Ok(a) => calling::one_said(o, a),
    }
}

fn two_call(line: &[u8], o: Two, left: Kind, right: Kind) -> Reply
    ensures { result ≡ the.answer_by line.now (F.OfTwo o left right) }
{
    match text::read(left, field(line, 3)) {
        Err(r) => calling::refused(r),
        Ok(a) => match text::read(right, field(line, 5)) {
            Err(r) => calling::refused(r),
            Ok(b) => calling::two_said(o, a, b),
        },
    }
}

fn product_call(line: &[u8], k: Kind) -> Reply
    ensures { result ≡ the.answer_by line.now (F.Product k) }
{
    match text::read(k, field(line, 3)) {
        Err(r) => calling::refused(r),
        Ok(a) => {
            let n = forms::whole(field(line, 4));
            calling::value_said(operation::times(a, n.negative, n.magnitude))
        }
    }
}

fn cast_call(line: &[u8], k: Kind, l: Kind) -> Reply
    ensures { result ≡ the.answer_by line.now (F.Cast k l) }
{
    match text::read(k, field(line, 3)) {
        Err(r) => calling::refused(r),
        Ok(a) => calling::value_said(operation::cast(a, l)),
    }
}

// Whether an input is short enough to be answered line by line.
pub fn takes(input: &[u8]) -> bool
    ensures { result ≡ leb (length input.now) the.max_calls_input }
{
    input.len() <= MAX_INPUT
}

// The answer to an input that is too long, and to a line that is no call.
pub fn no_call() -> Reply
    ensures { result ≡ the.no_call }
{
    calling::refused(Refusal::numbered(Refusal::BAD_CONDITION))
}

// The answer to a line without its byte 10.
pub fn answer(line: &[u8]) -> Reply
    ensures { result ≡ the.answer_of line.now }
{
    match forms::form(line) {
        CallForm::No => no_call(),
        CallForm::OfOne(o, k) => one_call(line, o, k),
        CallForm::OfTwo(o, k, l) => two_call(line, o, k, l),
        CallForm::Product(k) => product_call(line, k),
        CallForm::Cast(k, l) => cast_call(line, k, l),
    }
}
