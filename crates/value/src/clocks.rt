// The time of day of a record and the size of a duration, as spans of time and back. Readers, writers and operations
// go by these and know nothing of the fields.
ghost use Rattle.std.specs.Prelude.{◌≡◌, true, ◌<◌};
ghost use Rattle.value.specs.Bounds.{second_ticks, day_ticks};
ghost use Rattle.value.specs.Carried.{ticks_of, span_of};
ghost use Rattle.value.specs.Clocks as the;
ghost use Rattle.value.specs.Values.{ok_time_part, ok_day_time};

use crate::{DateTime, DayTime, Span, Zone};
use calendar::Date;

const TICKS: u64 = Span::TICKS as u64;

// A number of ticks as a span.
pub fn span(ticks: u64) -> Span
    ensures { result ≡ span_of ticks }
{
    Span {
        seconds: ticks / TICKS,
        part: (ticks % TICKS) as u32,
    }
}

// The time of day of a record within the bounds.
pub fn clock(d: DateTime) -> Span
    requires { ok_time_part d ≡ true }
    ensures { result ≡ span_of (the.clock_of d) }
{
    Span {
        seconds: d.second as u64,
        part: d.nanosecond,
    }
}

// The record with a date, a second, a nanosecond, whatever they are, and a zone.
pub fn with_time(e: Date, second: u32, nanosecond: u32, zone: Zone) -> DateTime
    ensures { result ≡ the.with_time e second nanosecond zone }
{
    DateTime {
        year: e.year,
        month: e.month,
        day: e.day,
        second,
        nanosecond,
        zone,
    }
}

// The record with a date, a time of day and a zone.
pub fn at(e: Date, t: Span, zone: Zone) -> DateTime
    requires { (t.part < second_ticks) × (ticks_of t < day_ticks) }
    ensures { result ≡ the.at_clock e (ticks_of t) zone }
{
    with_time(e, t.seconds as u32, t.part, zone)
}

// The record with a date, the time of day of another record, and a zone.
pub fn at_clock_of(e: Date, d: DateTime, zone: Zone) -> DateTime
    ensures { result ≡ the.at_clock_of e d zone }
{
    with_time(e, d.second, d.nanosecond, zone)
}

#[tactic(auto, unfolding(basis::specs::Choice::both, crate::specs::Clocks::same_clock))]
pub fn same(a: DateTime, b: DateTime) -> bool
    ensures { result ≡ the.same_clock a b }
{
    a.second == b.second && a.nanosecond == b.nanosecond
}

// The size of a duration within the bounds.
pub fn size(t: DayTime) -> Span
    requires { ok_day_time t ≡ true }
    ensures { result ≡ span_of (the.ticks_in t) }
{
    Span {
        seconds: t.seconds,
        part: t.nanoseconds,
    }
}

// The duration with a sign, seconds and nanoseconds, whatever they are.
pub fn with_size(negative: bool, seconds: u64, nanoseconds: u32) -> DayTime
    ensures { result ≡ the.with_size negative seconds nanoseconds }
{
    DayTime {
        negative,
        seconds,
        nanoseconds,
    }
}

// The duration with a sign and a size.
pub fn lasting(negative: bool, s: Span) -> DayTime
    requires { s.part < second_ticks }
    ensures { result ≡ the.duration_of negative (ticks_of s) }
{
    with_size(negative, s.seconds, s.part)
}
