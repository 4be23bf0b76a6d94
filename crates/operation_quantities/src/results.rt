// Results: a value, or that it is beyond its kind's bounds.
ghost use Rattle.std.specs.Prelude.{◌≡◌, ◌<◌, leb};
ghost use Rattle.basis.specs.Choice.{pick};
ghost use Rattle.basis.specs.Answer.{gives, refuses};
ghost use Rattle.value.specs.Bounds.{second_ticks, max_day_time, max_year_month};
ghost use Rattle.value.specs.Clocks.{duration_of};
ghost use Rattle.value.specs.Refusals.{beyond_result};
ghost use Rattle.value.specs.Kinds.{meaning};
ghost use Rattle.value.specs.Carried.{ticks_of};
ghost use Rattle.value.specs.declared.Value.TheVariants as VV;
ghost use Rattle.operation_quantities.specs.Results as the;

use value::{Kind, Refusal, Span, Value, YearMonth, Zone, clocks, kinds, valid};
use value_instants::{spans, ticks};

pub fn refused(number: u8) -> Result<Value, Refusal>
    ensures { meaning result ≡ refuses number }
{
    Err(Refusal::numbered(number))
}

fn day_time(negative: bool, s: Span) -> Result<Value, Refusal>
    requires { s.part < second_ticks }
    ensures { meaning result ≡ pick (leb (ticks_of s) max_day_time) (gives (VV.DayTime (duration_of negative (ticks_of s)))) (refuses beyond_result) }
{
    if !valid::size_ok(s) {
        return refused(Refusal::BEYOND_RESULT);
    }
    Ok(Value::DayTime(clocks::lasting(negative, s)))
}

// The dayTimeDuration of p - q.
pub fn in_ticks(p: Span, q: Span) -> Result<Value, Refusal>
    requires { (p.part < second_ticks) × (q.part < second_ticks) }
    ensures { meaning result ≡ the.in_ticks (ticks_of p) (ticks_of q) }
{
    if spans::is_less(p, q) {
        return day_time(true, spans::minus(q, p));
    }
    day_time(false, spans::minus(p, q))
}

fn year_month(negative: bool, n: u64) -> Result<Value, Refusal>
    ensures { meaning result ≡ pick (leb n max_year_month) (gives (VV.YearMonth (record { negative = negative; months = n }))) (refuses beyond_result) }
{
    if (YearMonth::MAX as u64) < n {
        return refused(Refusal::BEYOND_RESULT);
    }
    Ok(Value::YearMonth(YearMonth {
        negative,
        months: n as u32,
    }))
}

// The yearMonthDuration of p - q.
pub fn in_months(p: u64, q: u64) -> Result<Value, Refusal>
    ensures { meaning result ≡ the.in_months p q }
{
    if p < q {
        return year_month(true, q - p);
    }
    year_month(false, p - q)
}

// What a kind keeps of the record with the local time t.
pub fn at_ticks(kind: Kind, t: Span, zone: Zone) -> Result<Value, Refusal>
    requires { t.part < second_ticks }
    ensures { meaning result ≡ the.at_ticks kind (ticks_of t) zone }
{
    let found = ticks::placed(t, zone);
    match found {
        Some(d) => Ok(Value::Moment(kind, kinds::kept(kind, d))),
        None => refused(Refusal::BEYOND_RESULT),
    }
}
