// A value in another zone, or in none.
#![tactic(auto)]

ghost use Rattle.std.specs.Prelude.{◌≡◌, true, ◌*◌, ◌<◌, ◌≤◌, ◌^◌};
ghost use Rattle.value.specs.Bounds.{second_ticks, minute_seconds, max_zone};
ghost use Rattle.value.specs.Values.{ok_offset, ok_date_time, ok_day_time};
ghost use Rattle.value.specs.Kinds.{ok_value, meaning};
ghost use Rattle.value.specs.Carried.{span_of, ticks_of};
ghost use Rattle.operation_adjusting.specs.Adjustment as the;

use calendar::Date;
use operation_quantities::results;
use value::{DateTime, DayTime, Kind, Offset, Refusal, Span, Value, Zone, clocks};
use value_instants::ticks;

fn is_zone(z: DayTime) -> bool
    requires { ok_day_time z ≡ true }
    ensures { result ≡ the.is_zone z }
{
    let size = clocks::size(z);
    if size.part != 0 {
        return false;
    }
    if size.seconds % Span::MINUTE != 0 {
        return false;
    }
    size.seconds / Span::MINUTE <= DateTime::MAX_ZONE as u64
}

fn zone_of(z: DayTime) -> Offset
    requires { (ok_day_time z ≡ true) × (the.is_zone z ≡ true) }
    ensures { result ≡ the.zone_of z }
{
    let size = clocks::size(z);
    let m = (size.seconds / Span::MINUTE) as u16;
    if z.negative {
        return Offset::West(m);
    }
    Offset::East(m)
}

// The local time of an instant.
fn local_at(t: Span, o: Offset) -> Span
    requires { (t.part < second_ticks) × (max_zone * minute_seconds ≤ t.seconds) × (t.seconds < 2 ^ 63) × (ok_offset o ≡ true) }
    ensures { result ≡ span_of (the.local_at (ticks_of t) o) }
{
    let seconds = t.seconds;
    let part = t.part;
    match o {
        Offset::East(m) => Span {
            seconds: seconds + m as u64 * Span::MINUTE,
            part,
        },
        Offset::West(m) => Span {
            seconds: seconds - m as u64 * Span::MINUTE,
            part,
        },
    }
}

fn with_zone(d: DateTime, zone: Zone) -> DateTime
    ensures { result ≡ the.with_zone d zone }
{
    let e = Date {
        year: d.year,
        month: d.month,
        day: d.day,
    };
    clocks::at_clock_of(e, d, zone)
}

fn adjusted_from(kind: Kind, d: DateTime, z: Offset) -> Result<Value, Refusal>
    requires { (ok_date_time d ≡ true) × (ok_offset z ≡ true) }
    ensures { meaning result ≡ the.adjusted_from kind d d.zone z }
{
    let own = d.zone;
    match own {
        None => Ok(Value::Moment(kind, with_zone(d, Some(z)))),
        Some(w) => {
            let i = ticks::instant_at(ticks::local(d), w);
            results::at_ticks(kind, local_at(i, z), Some(z))
        }
    }
}

fn adjusted_to(kind: Kind, d: DateTime, z: DayTime) -> Result<Value, Refusal>
    requires { (ok_date_time d ≡ true) × (ok_day_time z ≡ true) }
    ensures { meaning result ≡ the.adjusted_to kind d z }
{
    if !is_zone(z) {
        return results::refused(Refusal::BAD_ZONE);
    }
    adjusted_from(kind, d, zone_of(z))
}

fn moment_to(kind: Kind, d: DateTime, z: Value) -> Result<Value, Refusal>
    requires { (ok_date_time d ≡ true) × (ok_value z ≡ true) }
    ensures { meaning result ≡ the.moment_to kind d z }
{
    match z {
        Value::Moment(_, _) => results::refused(Refusal::WRONG_KIND),
        Value::DayTime(t) => adjusted_to(kind, d, t),
        Value::YearMonth(_) => results::refused(Refusal::WRONG_KIND),
    }
}

pub fn value_to(a: Value, z: Value) -> Result<Value, Refusal>
    requires { (ok_value a ≡ true) × (ok_value z ≡ true) }
    ensures { meaning result ≡ the.value_to a z }
{
    match a {
        Value::Moment(kind, d) => moment_to(kind, d, z),
        Value::DayTime(_) => results::refused(Refusal::WRONG_KIND),
        Value::YearMonth(_) => results::refused(Refusal::WRONG_KIND),
    }
}

pub fn without_zone(a: Value) -> Result<Value, Refusal>
    ensures { meaning result ≡ the.without_zone a }
{
    match a {
        Value::Moment(kind, d) => Ok(Value::Moment(kind, with_zone(d, None))),
        Value::DayTime(_) => results::refused(Refusal::WRONG_KIND),
        Value::YearMonth(_) => results::refused(Refusal::WRONG_KIND),
    }
}
