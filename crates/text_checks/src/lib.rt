// The checks of the parts that were found in a text, in document 01's order.
#![tactic(auto)]

ghost use Rattle.std.specs.Prelude.{◌≡◌, true, ◌<◌};
ghost use Rattle.basis.specs.Answer.{gives, refuses};
ghost use Rattle.value.specs.Bounds.{second_ticks};
ghost use Rattle.value.specs.Values.{ok_date};
ghost use Rattle.value.specs.Kinds.{meaning};
ghost use Rattle.value.specs.declared.Value.TheVariants as VV;
ghost use Rattle.text_scan.specs.Carried.{scan_in};
ghost use Rattle.text_checks.specs.Reading as the;

use calendar::Date;
use text_scan::{FoundClock, FoundDate, FoundParts, FoundZone};
use value::{DateTime, Kind, Offset, Refusal, Span, Value, Zone};

const MAX_HOUR: u8 = 23;

const MAX_MINUTE: u8 = 59;

// The hour of a day's end, which is the start of the next day.
const DAY_END: u8 = Span::DAY_HOURS as u8;

const HOUR_MINUTES: u16 = Span::HOUR_MINUTES as u16;

fn refused(number: u8) -> Result<Value, Refusal>
    ensures { meaning result ≡ refuses number }
{
    Err(Refusal::numbered(number))
}

fn moment(kind: Kind, d: DateTime) -> Result<Value, Refusal>
    ensures { meaning result ≡ gives (VV.Moment kind d) }
{
    Ok(Value::Moment(kind, d))
}

#[tactic(auto, unfolding(basis::specs::Choice::both, basis::specs::Choice::every, crate::specs::Reading::ok_clock))]
fn clock_ok(c: FoundClock) -> bool
    ensures { result ≡ the.ok_clock c }
{
    c.hour <= MAX_HOUR && c.minute <= MAX_MINUTE && c.second <= MAX_MINUTE
}

#[tactic(auto, unfolding(basis::specs::Choice::both, basis::specs::Choice::every, crate::specs::Reading::is_day_end))]
fn is_day_end(c: FoundClock) -> bool
    ensures { result ≡ the.is_day_end c }
{
    c.hour == DAY_END && c.minute == 0 && c.second == 0 && c.part == 0
}

#[tactic(auto, unfolding(crate::specs::Reading::good_clock))]
fn clock_good(c: FoundClock) -> bool
    ensures { result ≡ the.good_clock c }
{
    clock_ok(c) || is_day_end(c)
}

fn offset_minutes(z: FoundZone) -> u16
    ensures { result ≡ the.offset_minutes z }
{
    z.hours as u16 * HOUR_MINUTES + z.minutes as u16
}

#[tactic(auto, unfolding(basis::specs::Choice::both, basis::specs::Choice::every, crate::specs::Reading::ok_parts))]
fn zone_ok(z: FoundZone) -> bool
    ensures { result ≡ the.ok_parts z }
{
    z.minutes <= MAX_MINUTE && offset_minutes(z) <= DateTime::MAX_ZONE
}

// The zone with a sign, 0 where there is none. West by no minutes is zone 0, which is east.
fn zone_is(z: FoundZone) -> Zone
    ensures { result ≡ the.zone_is z }
{
    let sign = z.sign;
    if sign == 0 {
        return None;
    }
    let n = offset_minutes(z);
    if sign == b'-' {
        if n == 0 {
            return Some(Offset::East(0));
        }
        return Some(Offset::West(n));
    }
    Some(Offset::East(n))
}

// 00:00:00 of the day after; of a kind without a day, as time, the date stays.
fn next_day(kind: Kind, d: Date, zone: Zone) -> Result<Value, Refusal>
    requires { ok_date d.year d.month d.day ≡ true }
    ensures { meaning result ≡ the.next_day kind d zone }
{
    let midnight = Span {
        seconds: 0,
        part: 0,
    };
    let own = value::kinds::parts(kind);
    if own.day {
        let n = calendar::day_number(d);
        return match calendar::date_of(n + 1, DateTime::MAX_YEAR) {
            Some(e) => moment(kind, value::clocks::at(e, midnight, zone)),
            None => refused(Refusal::BEYOND_BOUNDS),
        };
    }
    moment(kind, value::clocks::at(d, midnight, zone))
}

// What a good date, clock and zone read as.
fn clock(kind: Kind, d: Date, c: FoundClock, zone: Zone) -> Result<Value, Refusal>
    requires { (ok_date d.year d.month d.day ≡ true) × (the.good_clock c ≡ true) × (c.part < second_ticks) }
    ensures { meaning result ≡ the.clocked kind d c zone }
{
    if c.hour == DAY_END {
        return next_day(kind, d, zone);
    }
    let t = Span {
        seconds: c.hour as u64 * Span::HOUR + c.minute as u64 * Span::MINUTE + c.second as u64,
        part: c.part,
    };
    moment(kind, value::clocks::at(d, t, zone))
}

// Month and day first, then hour, minute and second, then the zone.
fn on_calendar(kind: Kind, d: FoundDate, c: FoundClock, z: FoundZone) -> Result<Value, Refusal>
    requires { c.part < second_ticks }
    ensures { meaning result ≡ the.on_calendar kind d c z }
{
    if !value::valid::date_ok(d.year, d.month, d.day) {
        return refused(Refusal::BAD_TEXT);
    }
    if !clock_good(c) {
        return refused(Refusal::BAD_TEXT);
    }
    if !zone_ok(z) {
        return refused(Refusal::BAD_TEXT);
    }
    let zone = zone_is(z);
    let day = Date {
        year: d.year,
        month: d.month,
        day: d.day,
    };
    clock(kind, day, c, zone)
}

// What the parts of a text of n bytes read as. A part of a second is less than a second, as it is in every text.
#[tactic(auto, unfolding(crate::specs::Reading::judge, crate::specs::Reading::bounded))]
pub fn judged(kind: Kind, n: usize, found: Result<FoundParts, FoundParts>) -> Result<Value, Refusal>
    requires { (scan_in found).clock.part < second_ticks }
    ensures { meaning result ≡ the.judge kind n (scan_in found) }
{
    let Ok(t) = found else {
        return refused(Refusal::BAD_TEXT);
    };
    if t.at != n {
        return refused(Refusal::BAD_TEXT);
    }
    if t.clock.long {
        return refused(Refusal::LONG_FRACTION);
    }
    if t.date.negative {
        return refused(Refusal::BEYOND_BOUNDS);
    }
    if DateTime::MAX_YEAR < t.date.year {
        return refused(Refusal::BEYOND_BOUNDS);
    }
    let d = t.date;
    let c = t.clock;
    let z = t.zone;
    on_calendar(kind, d, c, z)
}
