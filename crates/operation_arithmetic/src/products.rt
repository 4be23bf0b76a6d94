// A duration times a whole number, which is a sign and a magnitude.
ghost use Rattle.std.specs.Prelude.{◌≡◌, true, ◌≤◌};
ghost use Rattle.value.specs.Values.{ok_day_time};
ghost use Rattle.value.specs.Kinds.{ok_value, meaning};
ghost use Rattle.operation_arithmetic.specs.Products as the;
ghost use Rattle.value.specs.declared.Value.TheVariants as VV;

use operation_quantities::{halves, results};
use value::{DayTime, Refusal, Value, YearMonth};
use value_instants::spans;

pub const MAX_FACTOR: u32 = 999_999;

pub fn max_factor() -> u32
    ensures { result ≡ the.max_factor }
{
    MAX_FACTOR
}

fn day_time_times(t: DayTime, negative: bool, n: u32) -> Result<Value, Refusal>
    requires { (ok_day_time t ≡ true) × (n ≤ the.max_factor) }
    ensures { meaning result ≡ the.product_of (VV.DayTime t) negative n }
{
    let p = spans::times(halves::plus_ticks(t), n);
    let q = spans::times(halves::minus_ticks(t), n);
    if negative {
        return results::in_ticks(q, p);
    }
    results::in_ticks(p, q)
}

fn year_month_times(m: YearMonth, negative: bool, n: u32) -> Result<Value, Refusal>
    requires { n ≤ the.max_factor }
    ensures { meaning result ≡ the.product_of (VV.YearMonth m) negative n }
{
    let p = halves::plus_half(m.negative, m.months as u64) * n as u64;
    let q = halves::minus_half(m.negative, m.months as u64) * n as u64;
    if negative {
        return results::in_months(q, p);
    }
    results::in_months(p, q)
}

pub fn product(a: Value, negative: bool, n: u32) -> Result<Value, Refusal>
    requires { (ok_value a ≡ true) × (n ≤ the.max_factor) }
    ensures { meaning result ≡ the.product_of a negative n }
{
    match a {
        Value::Moment(_, _) => results::refused(Refusal::WRONG_KIND),
        Value::DayTime(t) => day_time_times(t, negative, n),
        Value::YearMonth(m) => year_month_times(m, negative, n),
    }
}
