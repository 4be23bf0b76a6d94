// A dayTimeDuration added to a date, time or dateTime, in local time.
ghost use Rattle.std.specs.Prelude.{◌≡◌, true, ◌+◌, ◌-◌, ◌%◌, ◌<◌};
ghost use Rattle.value.specs.Bounds.{second_ticks, day_ticks};
ghost use Rattle.value.specs.Carried.{ticks_of, span_of};
ghost use Rattle.value.specs.Clocks.{clock_of};
ghost use Rattle.value.specs.Durations as halves;
ghost use Rattle.value.specs.Values.{ok_date_time, ok_day_time};
ghost use Rattle.value.specs.Kinds.{meaning};
ghost use Rattle.value_instants.specs.Ticks.{local_of};
ghost use Rattle.operation_quantities.specs.Results.{at_ticks};
ghost use Rattle.operation_shifting.specs.Shifts as the;

use calendar::Date;
use operation_quantities::results;
use value::{DateTime, DayTime, Kind, Refusal, Span, Value, clocks, kinds};
use value_instants::{spans, ticks};

// A span less its whole days.
fn round_day(s: Span) -> Span
    requires { s.part < second_ticks }
    ensures { result ≡ span_of (ticks_of s % day_ticks) }
{
    Span {
        seconds: s.seconds % Span::DAY,
        part: s.part,
    }
}

// The time of day after a duration, round the day. The duration's whole days are dropped first: it may be longer than
// all the years.
fn wrapped_clock(d: DateTime, t: DayTime) -> Span
    requires { (ok_date_time d ≡ true) × (ok_day_time t ≡ true) }
    ensures { result ≡ span_of (the.wrapped_clock (clock_of d) (halves.plus_ticks t) (halves.minus_ticks t)) }
{
    let clock = clocks::clock(d);
    let rest = round_day(clocks::size(t));
    if t.negative {
        let day = Span {
            seconds: Span::DAY,
            part: 0,
        };
        return round_day(spans::plus(clock, spans::minus(day, rest)));
    }
    round_day(spans::plus(clock, rest))
}

fn wrapped(d: DateTime, t: DayTime) -> DateTime
    requires { (ok_date_time d ≡ true) × (ok_day_time t ≡ true) }
    ensures { result ≡ the.wrapped d (halves.plus_ticks t) (halves.minus_ticks t) }
{
    let zone = d.zone;
    let e = Date {
        year: d.year,
        month: d.month,
        day: d.day,
    };
    clocks::at(e, wrapped_clock(d, t), zone)
}

// The local time after a duration, of a kind that has a date.
fn local_shifted(kind: Kind, d: DateTime, t: DayTime) -> Result<Value, Refusal>
    requires { (ok_date_time d ≡ true) × (ok_day_time t ≡ true) }
    ensures { meaning result ≡ at_ticks kind (local_of d + halves.plus_ticks t - halves.minus_ticks t) d.zone }
{
    let zone = d.zone;
    let local = ticks::local(d);
    let amount = clocks::size(t);
    if t.negative {
        if spans::is_less(local, amount) {
            return results::refused(Refusal::BEYOND_RESULT);
        }
        return results::at_ticks(kind, spans::minus(local, amount), zone);
    }
    results::at_ticks(kind, spans::plus(local, amount), zone)
}

pub fn shifted(kind: Kind, d: DateTime, t: DayTime) -> Result<Value, Refusal>
    requires { (ok_date_time d ≡ true) × (ok_day_time t ≡ true) }
    ensures { meaning result ≡ the.shifted_by kind d t }
{
    if kinds::is_dated(kind) {
        return local_shifted(kind, d, t);
    }
    if kinds::is_clocked(kind) {
        return Ok(Value::Moment(kind, wrapped(d, t)));
    }
    results::refused(Refusal::WRONG_KIND)
}
