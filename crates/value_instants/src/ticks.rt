// Local time and UTC instant of a record, and the record at a local time.
ghost use Rattle.std.specs.Prelude.{◌≡◌, true, ◌*◌, ◌≤◌, ◌<◌, ◌^◌};
ghost use Rattle.value.specs.Bounds.{second_ticks, minute_seconds, max_zone};
ghost use Rattle.value.specs.Values.{ok_offset, ok_date_time};
ghost use Rattle.value.specs.Kinds.{ok_value};
ghost use Rattle.value_instants.specs.Ticks.{local_of, offset_in, instant_at, instant_of, placed_at, past_years, forward_of};
ghost use Rattle.value.specs.Carried.{ticks_of, span_of};
ghost use Rattle.value_instants.specs.Ticks as the;

use calendar::Date;
use value::{DateTime, Offset, Span, Value, Zone, clocks};

pub fn local(d: DateTime) -> Span
    requires { ok_date_time d ≡ true }
    ensures { result ≡ span_of (local_of d) }
{
    let n = calendar::day_number(Date {
        year: d.year,
        month: d.month,
        day: d.day,
    });
    let t = clocks::clock(d);
    Span {
        seconds: n * Span::DAY + t.seconds,
        part: t.part,
    }
}

// UTC: the zone that values without one count in where no other is given.
pub fn utc() -> Offset
    ensures { result ≡ the.utc }
{
    Offset::East(0)
}

// The offset of a zone. A value without zone counts in the given one.
pub fn offset_in(given: Offset, z: Zone) -> Offset
    ensures { result ≡ offset_in given z }
{
    z.unwrap_or(given)
}

// The local time t at an offset from UTC, as an instant.
pub fn instant_at(t: Span, o: Offset) -> Span
    requires { (t.part < second_ticks) × (max_zone * minute_seconds ≤ t.seconds) × (t.seconds < 2 ^ 63) × (ok_offset o ≡ true) }
    ensures { result ≡ span_of (instant_at (ticks_of t) o) }
{
    let seconds = t.seconds;
    let part = t.part;
    match o {
        Offset::East(m) => Span {
            seconds: seconds - m as u64 * Span::MINUTE,
            part,
        },
        Offset::West(m) => Span {
            seconds: seconds + m as u64 * Span::MINUTE,
            part,
        },
    }
}

pub fn instant(d: DateTime, given: Offset) -> Span
    requires { (ok_date_time d ≡ true) × (ok_offset given ≡ true) }
    ensures { result ≡ span_of (instant_of given d) }
{
    let t = local(d);
    let zone = d.zone;
    let o = offset_in(given, zone);
    instant_at(t, o)
}

// The record with the local time t, where that lies within the years.
pub fn placed(t: Span, zone: Zone) -> Option<DateTime>
    requires { t.part < second_ticks }
    ensures { result ≡ placed_at (ticks_of t) zone }
{
    let d = calendar::date_of(t.seconds / Span::DAY, DateTime::MAX_YEAR)?;
    if d.year < DateTime::MIN_YEAR {
        return None;
    }
    let time = Span {
        seconds: t.seconds % Span::DAY,
        part: t.part,
    };
    Some(clocks::at(d, time, zone))
}

// Whether the year of the local time t passes the last one.
pub fn past_years(t: Span) -> bool
    requires { t.part < second_ticks }
    ensures { result ≡ past_years (ticks_of t) }
{
    calendar::date_of(t.seconds / Span::DAY, DateTime::MAX_YEAR).is_none()
}

// A dayTimeDuration as the span by which it leads forward, none where it is not above zero; a value of another kind leads nowhere.
pub fn forward(v: Value) -> Span
    requires { ok_value v ≡ true }
    ensures { result ≡ span_of (forward_of v) }
{
    match v {
        Value::Moment(_, _) => clocks::span(0),
        Value::YearMonth(_) => clocks::span(0),
        Value::DayTime(d) => {
            if d.negative {
                return clocks::span(0);
            }
            clocks::size(d)
        }
    }
}
