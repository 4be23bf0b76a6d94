// The parts of a text, found along the layout of its kind before they are judged.
#![tactic(auto)]

ghost use Rattle.std.specs.Prelude.{◌≡◌, true, false, ◌+◌, ◌-◌, ◌≤◌, ◌<◌, eqb, length, get_or};
ghost use Rattle.basis.specs.Choice.{pick};
ghost use Rattle.value.specs.Rows.{template_of};
ghost use Rattle.numerals.specs.Carried.{without_zero};
ghost use Rattle.text_scan.specs.Scanning.{four_zeros, leading_zero, pair_at, year_at, year_part, fraction_part, zone_part, zone_signed, is_pair, with_pair, part_at, scanned, reached, start_of, scanned_parts};
ghost use Rattle.text_scan.specs.Carried.{capped, pair_in, year_in, scan, scan_in};

use numerals::{byte, digit, digits, fraction_at};
use value::{DateTime, Kind};

// A year has so many digits, or more.
pub const YEAR_DIGITS: usize = 4;

// The date that was found in a text. Of a year no more is kept than one above the greatest.
#[derive(Clone, Copy)]
pub struct FoundDate {
    pub negative: bool,
    pub year: u16,
    pub month: u8,
    pub day: u8,
}

// The clock that was found: a part of a second in ticks, or that its digits are too many, and the offset of the point
// before them, 0 where there is none.
#[derive(Clone, Copy)]
pub struct FoundClock {
    pub hour: u8,
    pub minute: u8,
    pub second: u8,
    pub part: u32,
    pub long: bool,
    pub point: usize,
}

// The zone that was found: +, - or Z with its hours and minutes; sign 0 where there is none.
#[derive(Clone, Copy)]
pub struct FoundZone {
    pub sign: u8,
    pub hours: u8,
    pub minutes: u8,
}

// The parts found so far, and the offset that is reached. What is not found is an error with the parts found before it:
// its offset is that of the first byte at which no text of good shape could go on.
#[derive(Clone, Copy)]
pub struct FoundParts {
    pub date: FoundDate,
    pub clock: FoundClock,
    pub zone: FoundZone,
    pub at: usize,
}

// Two digits at an offset, which moves past them; or none, and it moves to where there is no digit.
#[tactic(auto, using(numerals::proofs::Stretches::a_digit), unfolding(crate::specs::Scanning::pair_at))]
fn pair_at(s: &[u8], at: &mut usize) -> Option<u8>
    requires { at.old ≤ length s.now + 8 }
    ensures { pair_in result at.new ≡ pair_at s.now at.old }
{
    let a = byte(s, *at);
    if !digit(a) {
        return None;
    }
    *at += 1;
    let b = byte(s, *at);
    if !digit(b) {
        return None;
    }
    *at += 1;
    Some((a - b'0') * 10 + (b - b'0'))
}

// A year at an offset, which moves past it: four digits, or more with no leading zero; not 0000. However many digits it
// has, no more than one above the greatest year is kept of it. Or none, and the offset moves to the first byte that no
// year could have there.
fn year_at(s: &[u8], at: &mut usize) -> Option<u16>
    requires { at.old ≤ length s.now }
    ensures { year_in result at.new ≡ year_at capped s.now at.old }
{
    let from = *at;
    let n = digits(s, from, DateTime::MAX_YEAR as u64 + 1);
    let end = n.end;
    *at = end;
    if end - from < YEAR_DIGITS {
        return None;
    }
    if zeros(s, from) {
        *at = from + 3;
        return None;
    }
    if leading(s, from, end) {
        *at = from + 4;
        return None;
    }
    Some(n.value as u16)
}

// Whether four bytes from an offset on are all 0.
#[tactic(auto, unfolding(basis::specs::Choice::both, basis::specs::Choice::every, crate::specs::Scanning::four_zeros))]
fn zeros(s: &[u8], at: usize) -> bool
    requires { at ≤ length s.now }
    ensures { result ≡ four_zeros s.now at }
{
    byte(s, at) == b'0'
        && byte(s, at + 1) == b'0'
        && byte(s, at + 2) == b'0'
        && byte(s, at + 3) == b'0'
}

// Whether a year of more than four digits begins with 0.
#[tactic(auto, unfolding(basis::specs::Choice::both))]
fn leading(s: &[u8], at: usize, end: usize) -> bool
    requires { at ≤ end }
    ensures { result ≡ leading_zero s.now at (end - at) }
{
    YEAR_DIGITS < end - at && byte(s, at) == b'0'
}

// A year, after an optional minus. This and the next look for a part, and say whether it is there. The offset is then past
// it, or at the first byte that it could not have.
#[tactic(auto, unfolding(crate::specs::Scanning::year_part))]
fn year_part(s: &[u8], t: &mut FoundParts) -> bool
    requires { t.old.at ≤ length s.now }
    ensures { scan result t.new ≡ year_part capped s.now (scan true t.old) }
{
    t.date.negative = byte(s, t.at) == b'-';
    if t.date.negative {
        t.at += 1;
    }
    let year = year_at(s, &mut t.at);
    t.date.year = year.unwrap_or(0);
    year.is_some()
}

// Nothing, or a point and at least one digit.
#[tactic(auto, unfolding(crate::specs::Scanning::fraction_part))]
fn fraction_part(s: &[u8], t: &mut FoundParts) -> bool
    requires { t.old.at ≤ length s.now }
    ensures { scan result t.new ≡ fraction_part s.now (scan true t.old) }
{
    let point = t.at;
    if byte(s, point) != b'.' {
        return true;
    }
    let f = fraction_at(s, point + 1);
    t.at = f.end;
    if f.end == point + 1 {
        return false;
    }
    t.clock.part = f.ticks;
    t.clock.long = f.long;
    t.clock.point = point;
    true
}

// A sign with hh:mm.
#[tactic(auto, unfolding(crate::specs::Scanning::zone_signed))]
fn zone_signed(s: &[u8], t: &mut FoundParts, sign: u8) -> bool
    requires { t.old.at < length s.now }
    ensures { scan result t.new ≡ zone_signed s.now (scan true t.old) sign }
{
    t.at += 1;
    let Some(hours) = pair_at(s, &mut t.at) else {
        return false;
    };
    if byte(s, t.at) != b':' {
        return false;
    }
    t.at += 1;
    let Some(minutes) = pair_at(s, &mut t.at) else {
        return false;
    };
    t.zone = FoundZone {
        sign,
        hours,
        minutes,
    };
    true
}

// The text's end, or Z, or a sign with hh:mm.
#[tactic(auto, unfolding(crate::specs::Scanning::zone_part))]
fn zone_part(s: &[u8], t: &mut FoundParts) -> bool
    requires { t.old.at ≤ length s.now }
    ensures { scan result t.new ≡ zone_part s.now (scan true t.old) }
{
    if t.at == s.len() {
        return true;
    }
    match byte(s, t.at) {
        b'Z' => {
            t.zone = FoundZone {
                sign: b'Z',
                hours: 0,
                minutes: 0,
            };
            t.at += 1;
            true
        }
        b'+' => zone_signed(s, t, b'+'),
        b'-' => zone_signed(s, t, b'-'),
        _ => false,
    }
}

// Whether a letter stands for two digits.
#[tactic(auto, unfolding(crate::specs::Scanning::is_pair))]
pub fn is_pair(p: u8) -> bool
    ensures { result ≡ is_pair p }
{
    matches!(p, b'M' | b'D' | b'h' | b'm' | b's')
}

// Two digits as the part that a letter stands for, 0 where there are none.
#[tactic(auto, unfolding(crate::specs::Scanning::is_pair, crate::specs::Scanning::with_pair))]
fn pair_part(p: u8, s: &[u8], t: &mut FoundParts) -> bool
    requires { (t.old.at ≤ length s.now) × (is_pair p ≡ true) }
    ensures { scan result t.new ≡ with_pair p (scan true t.old) (pair_at s.now t.old.at) }
{
    let pair = pair_at(s, &mut t.at);
    let n = pair.unwrap_or(0);
    match p {
        b'M' => t.date.month = n,
        b'D' => t.date.day = n,
        b'h' => t.clock.hour = n,
        b'm' => t.clock.minute = n,
        _ => t.clock.second = n,
    }
    pair.is_some()
}

// A byte that stands for itself.
fn mark(p: u8, s: &[u8], t: &mut FoundParts) -> bool
    requires { t.old.at ≤ length s.now }
    ensures { scan result t.new ≡ pick (eqb (get_or s.now t.old.at 0) p) (reached (scan true t.old) (t.old.at + 1) true) (reached (scan true t.old) t.old.at false) }
{
    if byte(s, t.at) != p {
        return false;
    }
    t.at += 1;
    true
}

// One letter of a layout.
#[tactic(auto, unfolding(crate::specs::Scanning::part_at))]
fn part(p: u8, s: &[u8], t: &mut FoundParts) -> bool
    requires { t.old.at ≤ length s.now }
    ensures { scan result t.new ≡ part_at capped p s.now (scan true t.old) }
{
    match p {
        b'Y' => year_part(s, t),
        b'f' => fraction_part(s, t),
        b'z' => zone_part(s, t),
        _ if is_pair(p) => pair_part(p, s, t),
        _ => mark(p, s, t),
    }
}

// The parts of a text by a layout, from a template. After a part that is not there nothing more is looked for.
fn scan_all(layout: &[u8], s: &[u8], template: FoundParts) -> Result<FoundParts, FoundParts>
    requires { (template.at ≤ length s.now) × (without_zero layout.now ≡ true) }
    ensures { scan_in result ≡ scanned capped layout.now s.now (scan true template) }
{
    let mut t = template;
    for &p in layout {
        if !part(p, s, &mut t) {
            return Err(t);
        }
    }
    Ok(t)
}

// Before the first byte. A template is at 00:00:00.
fn start(kind: Kind) -> FoundParts
    ensures { scan true result ≡ start_of (template_of kind) }
{
    let d = value::kinds::template(kind);
    FoundParts {
        date: FoundDate {
            negative: false,
            year: d.year,
            month: d.month,
            day: d.day,
        },
        clock: FoundClock {
            hour: 0,
            minute: 0,
            second: 0,
            part: 0,
            long: false,
            point: 0,
        },
        zone: FoundZone {
            sign: 0,
            hours: 0,
            minutes: 0,
        },
        at: 0,
    }
}

// The parts of a text, along the layout of a kind.
pub fn parts_of(kind: Kind, s: &[u8]) -> Result<FoundParts, FoundParts>
    ensures { scan_in result ≡ scanned_parts capped kind s.now }
{
    scan_all(value::kinds::layout(kind), s, start(kind))
}
