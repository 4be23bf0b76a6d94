// The components of an amount, written in order.
ghost use Rattle.std.specs.Prelude.{◌≡◌, ◌++◌, ◌+◌, ◌≤◌, eqb, length};
ghost use Rattle.numerals.specs.Writing.{longest};
ghost use Rattle.text_durations.specs.Walks.{is_nothing};
ghost use Rattle.text_durations.specs.Spelling as its;

use crate::Sums;
use numerals::ValueText;

// Neither whole ones nor a part of one.
fn is_zero(n: u64, ticks: u32) -> bool
    ensures { result ≡ eqb (n + ticks) 0 }
{
    n == 0 && ticks == 0
}

pub fn is_nothing(sums: Sums, ticks: u32) -> bool
    ensures { result ≡ is_nothing sums ticks }
{
    sums.months == 0 && is_zero(sums.seconds, ticks)
}

// Seconds alone have a fraction.
fn fraction_in(letter: u8, ticks: u32) -> u32
    ensures { result ≡ its.fraction_in letter ticks }
{
    if letter == b'S' { ticks } else { 0 }
}

// n of a component. Zero parts are dropped.
fn shown(text: &mut ValueText, letter: u8, n: u64, ticks: u32)
    requires { length text.old + length (its.shown letter n ticks) ≤ longest }
    ensures { text.new ≡ text.old ++ its.shown letter n ticks }
{
    let u = fraction_in(letter, ticks);
    if is_zero(n, u) {
        return;
    }
    text.push_decimal(n);
    text.push_fraction(u as u64);
    text.push(letter);
}

// How many of a component there are.
fn share_of(time: bool, letter: u8, sums: Sums) -> u64
    ensures { result ≡ its.share_of time letter sums }
{
    let w = text_forms::weight(time, letter);
    if text_forms::counts_months(time, letter) {
        sums.months / w
    } else {
        sums.seconds / w
    }
}

// What they leave.
fn rest_of(time: bool, letter: u8, sums: Sums) -> Sums
    ensures { result ≡ its.rest_of time letter sums }
{
    let w = text_forms::weight(time, letter);
    if text_forms::counts_months(time, letter) {
        Sums {
            months: sums.months % w,
            ..sums
        }
    } else {
        Sums {
            seconds: sums.seconds % w,
            ..sums
        }
    }
}

// All of the components, in order: what they leave.
fn shown_all(text: &mut ValueText, time: bool, letters: &[u8], sums: Sums, ticks: u32) -> Sums
    requires { length text.old + length (its.shown_all time letters.now sums ticks) ≤ longest }
    ensures written { text.new ≡ text.old ++ its.shown_all time letters.now sums ticks }
    ensures rest { result ≡ its.left time letters.now sums }
{
    let mut left = sums;
    for &letter in letters {
        shown(text, letter, share_of(time, letter, left), ticks);
        left = rest_of(time, letter, left);
    }
    left
}

fn body(text: &mut ValueText, before: &[u8], after: &[u8], sums: Sums, ticks: u32)
    requires { length text.old + length (its.body before.now after.now sums ticks) ≤ longest }
    ensures { text.new ≡ text.old ++ its.body before.now after.now sums ticks }
{
    text.push(b'P');
    let left = shown_all(text, false, before, sums, ticks);
    if is_nothing(left, ticks) {
        return;
    }
    text.push(b'T');
    shown_all(text, true, after, left, ticks);
}

// An amount that is not zero, with its sign, by its components before T and after it.
pub fn spelt(negative: bool, before: &[u8], after: &[u8], sums: Sums, ticks: u32) -> ValueText
    requires { 1 + length (its.body before.now after.now sums ticks) ≤ longest }
    ensures { result ≡ its.spelt negative (its.body before.now after.now sums ticks) }
{
    let mut text = ValueText::new();
    if negative {
        text.push(b'-');
    }
    body(&mut text, before, after, sums, ticks);
    text
}
