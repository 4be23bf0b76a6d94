// Which records are within the bounds of documents 01 and 02.
ghost use Rattle.std.specs.Prelude.{◌≡◌, ◌<◌, leb};
ghost use Rattle.value.specs.Bounds.{second_ticks, max_day_time};
ghost use Rattle.value.specs.Carried.{ticks_of};
ghost use Rattle.value.specs.Values.{ok_date, ok_offset, ok_zone, ok_time_part, ok_date_time, ok_signed, ok_day_time};
ghost use Rattle.value.specs.Kinds.{ok_value, made, meaning};

use crate::{DateTime, DayTime, Offset, Refusal, Span, Value, YearMonth, Zone, kinds};

const MONTHS: u8 = calendar::MONTH_COUNT as u8;

#[tactic(auto, unfolding(basis::specs::Choice::both, basis::specs::Choice::every, crate::specs::Values::ok_date))]
pub fn date_ok(year: u16, month: u8, day: u8) -> bool
    ensures { result ≡ ok_date year month day }
{
    (DateTime::MIN_YEAR..=DateTime::MAX_YEAR).contains(&year)
        && (1..=MONTHS).contains(&month)
        && (1..=calendar::month_days(year, month)).contains(&day)
}

#[tactic(auto, unfolding(basis::specs::Choice::both, basis::specs::Choice::every, crate::specs::Values::ok_offset))]
pub fn offset_ok(o: Offset) -> bool
    ensures { result ≡ ok_offset o }
{
    match o {
        Offset::East(m) => m <= DateTime::MAX_ZONE,
        Offset::West(m) => (1..=DateTime::MAX_ZONE).contains(&m),
    }
}

#[tactic(auto, unfolding(crate::specs::Values::ok_zone))]
pub fn zone_ok(z: Zone) -> bool
    ensures { result ≡ ok_zone z }
{
    match z {
        None => true,
        Some(o) => offset_ok(o),
    }
}

#[tactic(auto, unfolding(basis::specs::Choice::both, basis::specs::Choice::every, crate::specs::Values::ok_time_part))]
fn time_part_ok(d: DateTime) -> bool
    ensures { result ≡ ok_time_part d }
{
    d.second <= DateTime::MAX_SECOND && d.nanosecond <= DateTime::MAX_NANOSECOND
}

#[tactic(auto, unfolding(basis::specs::Choice::both, basis::specs::Choice::every, crate::specs::Values::ok_date_time))]
pub fn date_time_ok(d: DateTime) -> bool
    ensures { result ≡ ok_date_time d }
{
    date_ok(d.year, d.month, d.day) && time_part_ok(d) && zone_ok(d.zone)
}

// A sign and a magnitude within a bound. Zero has no sign.
#[tactic(auto, unfolding(basis::specs::Choice::both, basis::specs::Choice::every, crate::specs::Values::ok_signed))]
pub fn signed_ok(bound: u64, negative: bool, n: u64) -> bool
    ensures { result ≡ ok_signed bound negative n }
{
    n <= bound && (!negative || 0 < n)
}

// Whether a size is within the bound of a dayTimeDuration: with the most seconds there is no part of one more.
pub fn size_ok(s: Span) -> bool
    requires { s.part < second_ticks }
    ensures { result ≡ leb (ticks_of s) max_day_time }
{
    s.seconds < DayTime::MAX_SECONDS || (s.seconds == DayTime::MAX_SECONDS && s.part == 0)
}

// Nanoseconds below a second, a size within the bound, and a sign only where it is not zero.
#[tactic(auto, unfolding(basis::specs::Choice::both, basis::specs::Choice::every, crate::specs::Values::ok_day_time, crate::specs::Values::ok_signed, crate::specs::Clocks::ticks_in))]
fn day_time_ok(d: DayTime) -> bool
    ensures { result ≡ ok_day_time d }
{
    let size = Span {
        seconds: d.seconds,
        part: d.nanoseconds,
    };
    d.nanoseconds <= DayTime::MAX_NANOSECONDS
        && size_ok(size)
        && (!d.negative || 0 < d.seconds || 0 < d.nanoseconds)
}

#[tactic(auto, unfolding(basis::specs::Choice::both, basis::specs::Choice::every, crate::specs::Kinds::ok_value))]
pub fn value_ok(v: Value) -> bool
    ensures { result ≡ ok_value v }
{
    match v {
        Value::Moment(kind, d) => kinds::is_moment(kind)
            && date_time_ok(d)
            && kinds::of_kind(kind, d),
        Value::DayTime(d) => day_time_ok(d),
        Value::YearMonth(d) => signed_ok(YearMonth::MAX as u64, d.negative, d.months as u64),
    }
}

// The value that was given, or that it is outside the bounds.
#[tactic(auto, unfolding(crate::specs::Kinds::made))]
pub fn checked(v: Value) -> Result<Value, Refusal>
    ensures { meaning result ≡ made v }
{
    if value_ok(v) {
        Ok(v)
    } else {
        Err(Refusal::numbered(Refusal::OUTSIDE))
    }
}
