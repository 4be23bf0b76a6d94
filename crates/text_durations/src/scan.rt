// The components of a text, found in order. However many digits a component has, sums stop at a cap and never wrap.
ghost use Rattle.std.specs.Prelude.{◌≡◌, true, ◌≤◌, min, length};
ghost use Rattle.numerals.specs.Carried.{without_zero};
ghost use Rattle.numerals.specs.Reading as digits;
ghost use Rattle.text_forms.specs.Forms as forms;
ghost use Rattle.text_durations.specs.Walks as the;
ghost use Rattle.text_durations.specs.Carried.{Small, seconds_cap, capped_sums, up_to, shape_up_to};

use crate::{Shape, Sums, Walk};
use value::{DayTime, Span, YearMonth};

// A sum is kept as far as one above its bound.
const MONTHS_CAP: u64 = YearMonth::MAX as u64 + 1;

const SECONDS_CAP: u64 = DayTime::MAX_SECONDS + 1;

fn up_to(cap: u64, n: u64) -> u64
    ensures { result ≡ min cap n }
{
    if n < cap { n } else { cap }
}

// The sums with n of a component.
fn counting(time: bool, letter: u8, n: u64, sums: Sums) -> Sums
    requires { (Small sums) × (n ≤ seconds_cap) }
    ensures { result ≡ capped_sums (the.counting time letter n sums) }
{
    let k = n * text_forms::weight(time, letter);
    if text_forms::counts_months(time, letter) {
        return Sums {
            months: up_to(MONTHS_CAP, sums.months + k),
            seconds: sums.seconds,
        };
    }
    Sums {
        months: sums.months,
        seconds: up_to(SECONDS_CAP, sums.seconds + k),
    }
}

// After the point of a component: with it the sums are those given.
fn pointed(s: &[u8], letter: u8, mut t: Walk, sums: Sums, from: usize) -> Walk
    requires { (from ≤ length s.now) × (1 ≤ letter) }
    ensures { result ≡ the.pointed s.now letter t sums from (digits.fraction_at s.now from) }
{
    let f = numerals::fraction_at(s, from);
    let end = f.end;
    t.far = end;
    if end == from {
        return t;
    }
    if numerals::byte(s, end) != letter {
        return t;
    }
    t.sums = sums;
    t.ticks = f.ticks;
    t.long = f.long;
    t.at = end + 1;
    t.far = end + 1;
    t
}

fn component(s: &[u8], time: bool, letter: u8, mut t: Walk) -> Walk
    requires { (t.at ≤ length s.now) × (Small t.sums) × (1 ≤ letter) }
    ensures { result ≡ up_to (the.component s.now time letter t) }
{
    let at = t.at;
    let n = numerals::digits(s, at, SECONDS_CAP);
    let end = n.end;
    if end == at {
        return t;
    }
    let sums = counting(time, letter, n.value, t.sums);
    let b = numerals::byte(s, end);
    if b == letter {
        t.sums = sums;
        t.at = end + 1;
        t.far = end + 1;
        return t;
    }
    if letter == b'S' {
        if b == b'.' {
            return pointed(s, letter, t, sums, end + 1);
        }
    }
    t.far = end;
    t
}

fn components(s: &[u8], time: bool, letters: &[u8], start: Walk) -> Walk
    requires { (start.at ≤ length s.now) × (Small start.sums) × (without_zero letters.now ≡ true) }
    ensures { result ≡ up_to (the.components s.now time letters.now start) }
{
    let mut t = start;
    for &letter in letters {
        t = component(s, time, letter, t);
    }
    t
}

fn ended(s: &[u8], negative: bool, from: usize, t: Walk) -> Shape
    ensures { result ≡ the.ended s.now negative from t }
{
    let sums = t.sums;
    if t.at == from {
        return Shape {
            negative,
            sums,
            ticks: t.ticks,
            long: t.long,
            good: false,
            offset: t.far,
        };
    }
    Shape {
        negative,
        sums,
        ticks: t.ticks,
        long: t.long,
        good: t.at == s.len(),
        offset: t.far,
    }
}

fn timed(s: &[u8], after: &[u8], negative: bool, from: usize, t: Walk) -> Shape
    requires { (t.at ≤ length s.now) × (Small t.sums) × (without_zero after.now ≡ true) }
    ensures { result ≡ shape_up_to (the.timed after.now s.now negative from t) }
{
    let at = t.at;
    if after.len() == 0 {
        return ended(s, negative, from, t);
    }
    if numerals::byte(s, at) != b'T' {
        return ended(s, negative, from, t);
    }
    let sums = t.sums;
    let start = Walk {
        sums,
        ticks: t.ticks,
        long: t.long,
        at: at + 1,
        far: at + 1,
    };
    ended(s, negative, at + 1, components(s, true, after, start))
}

fn shape_from(s: &[u8], before: &[u8], after: &[u8], negative: bool, at: usize) -> Shape
    requires { (at ≤ length s.now) × (without_zero before.now ≡ true) × (without_zero after.now ≡ true) }
    ensures { result ≡ shape_up_to (the.shape_from before.now after.now s.now negative at) }
{
    let sums = Sums {
        months: 0,
        seconds: 0,
    };
    if numerals::byte(s, at) != b'P' {
        return Shape {
            negative,
            sums,
            ticks: 0,
            long: false,
            good: false,
            offset: at,
        };
    }
    let from = at + 1;
    let start = Walk {
        sums,
        ticks: 0,
        long: false,
        at: from,
        far: from,
    };
    let t = components(s, false, before, start);
    timed(s, after, negative, from, t)
}

// The shape of a text whose components are those letters, before T and after it.
pub fn shape(s: &[u8], before: &[u8], after: &[u8]) -> Shape
    requires { (without_zero before.now ≡ true) × (without_zero after.now ≡ true) }
    ensures { result ≡ shape_up_to (the.shape before.now after.now s.now) }
{
    if numerals::byte(s, 0) == b'-' {
        return shape_from(s, before, after, true, 1);
    }
    shape_from(s, before, after, false, 0)
}
