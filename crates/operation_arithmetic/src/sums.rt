// Sums and differences, by the kinds of both sides.
ghost use Rattle.std.specs.Prelude.{◌≡◌, true, ◌+◌, ◌≤◌, ltb};
ghost use Rattle.value.specs.Bounds.{max_year_month};
ghost use Rattle.value.specs.Durations as signed;
ghost use Rattle.value.specs.Values.{ok_offset, ok_date_time, ok_day_time};
ghost use Rattle.value.specs.Kinds.{ok_value, meaning};
ghost use Rattle.value.specs.Carried.{span_of};
ghost use Rattle.operation_arithmetic.specs.Sums as the;
ghost use Rattle.value.specs.declared.Value.TheVariants as VV;

use operation_quantities::{halves, results};
use operation_shifting::{months, shifts};
use value::{DateTime, DayTime, Kind, Offset, Refusal, Span, Value, YearMonth, clocks, valid};
use value_instants::{spans, ticks};

fn moment_plus(kind: Kind, d: DateTime, b: Value) -> Result<Value, Refusal>
    requires { (ok_date_time d ≡ true) × (ok_value b ≡ true) }
    ensures { meaning result ≡ the.sum_of (VV.Moment kind d) b }
{
    match b {
        Value::Moment(_, _) => results::refused(Refusal::WRONG_KIND),
        Value::DayTime(t) => shifts::shifted(kind, d, t),
        Value::YearMonth(m) => months::moved(kind, d, m),
    }
}

fn plus_halves(a: DayTime, b: DayTime) -> Span
    requires { (ok_day_time a ≡ true) × (ok_day_time b ≡ true) }
    ensures { result ≡ span_of (signed.plus_ticks a + signed.plus_ticks b) }
{
    spans::plus(halves::plus_ticks(a), halves::plus_ticks(b))
}

fn minus_halves(a: DayTime, b: DayTime) -> Span
    requires { (ok_day_time a ≡ true) × (ok_day_time b ≡ true) }
    ensures { result ≡ span_of (signed.minus_ticks a + signed.minus_ticks b) }
{
    spans::plus(halves::minus_ticks(a), halves::minus_ticks(b))
}

fn day_time_plus(t: DayTime, b: Value) -> Result<Value, Refusal>
    requires { (ok_day_time t ≡ true) × (ok_value b ≡ true) }
    ensures { meaning result ≡ the.sum_of (VV.DayTime t) b }
{
    match b {
        Value::Moment(kind, d) => shifts::shifted(kind, d, t),
        Value::DayTime(s) => results::in_ticks(plus_halves(t, s), minus_halves(t, s)),
        Value::YearMonth(_) => results::refused(Refusal::WRONG_KIND),
    }
}

fn months_sum(a: YearMonth, b: YearMonth) -> Result<Value, Refusal>
    ensures { meaning result ≡ the.sum_of (VV.YearMonth a) (VV.YearMonth b) }
{
    let p = halves::plus_half(a.negative, a.months as u64);
    let q = halves::minus_half(a.negative, a.months as u64);
    let r = halves::plus_half(b.negative, b.months as u64);
    let s = halves::minus_half(b.negative, b.months as u64);
    results::in_months(p + r, q + s)
}

fn year_month_plus(m: YearMonth, b: Value) -> Result<Value, Refusal>
    requires { (m.months ≤ max_year_month) × (ok_value b ≡ true) }
    ensures { meaning result ≡ the.sum_of (VV.YearMonth m) b }
{
    match b {
        Value::Moment(kind, d) => months::moved(kind, d, m),
        Value::DayTime(_) => results::refused(Refusal::WRONG_KIND),
        Value::YearMonth(n) => months_sum(m, n),
    }
}

pub fn sum(a: Value, b: Value) -> Result<Value, Refusal>
    requires { (ok_value a ≡ true) × (ok_value b ≡ true) }
    ensures { meaning result ≡ the.sum_of a b }
{
    match a {
        Value::Moment(kind, d) => moment_plus(kind, d, b),
        Value::DayTime(t) => day_time_plus(t, b),
        Value::YearMonth(m) => year_month_plus(m, b),
    }
}

// The sign is set only where the size is not zero.
fn opposite(t: DayTime) -> DayTime
    requires { ok_day_time t ≡ true }
    ensures { result ≡ the.opposite t }
{
    let p = halves::plus_ticks(t);
    let q = halves::minus_ticks(t);
    clocks::lasting(spans::is_less(q, p), clocks::size(t))
}

// Zero has no sign.
fn opposite_sign(negative: bool, n: u64) -> bool
    ensures { result ≡ ltb (signed.minus_half negative n) (signed.plus_half negative n) }
{
    if negative { false } else { 0 < n }
}

fn opposite_months(m: YearMonth) -> YearMonth
    ensures { result ≡ the.opposite_months m }
{
    YearMonth {
        negative: opposite_sign(m.negative, m.months as u64),
        months: m.months,
    }
}

fn less_moment(a: Value, kind: Kind, e: DateTime, given: Offset) -> Result<Value, Refusal>
    requires { (ok_value a ≡ true) × (ok_date_time e ≡ true) × (ok_offset given ≡ true) }
    ensures { meaning result ≡ the.less_moment given a kind e }
{
    match a {
        Value::Moment(own, d) => {
            if own != kind {
                return results::refused(Refusal::WRONG_KIND);
            }
            results::in_ticks(ticks::instant(d, given), ticks::instant(e, given))
        }
        Value::DayTime(_) => results::refused(Refusal::WRONG_KIND),
        Value::YearMonth(_) => results::refused(Refusal::WRONG_KIND),
    }
}

fn difference(a: Value, b: Value, given: Offset) -> Result<Value, Refusal>
    requires { (ok_value a ≡ true) × (ok_value b ≡ true) × (ok_offset given ≡ true) }
    ensures { meaning result ≡ the.difference_in given a b }
{
    match b {
        Value::Moment(kind, e) => less_moment(a, kind, e, given),
        Value::DayTime(t) => sum(a, Value::DayTime(opposite(t))),
        Value::YearMonth(m) => sum(a, Value::YearMonth(opposite_months(m))),
    }
}

// A value without zone counts in the given offset.
pub fn minus_in(a: Value, b: Value, given: Offset) -> Result<Value, Refusal>
    requires { ok_offset given ≡ true }
    ensures { meaning result ≡ the.minus_in given a b }
{
    if !valid::value_ok(a) {
        return results::refused(Refusal::OUTSIDE);
    }
    if !valid::value_ok(b) {
        return results::refused(Refusal::OUTSIDE);
    }
    difference(a, b, given)
}
