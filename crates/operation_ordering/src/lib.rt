// What a value is ordered by: a whole number, as one span less another.
#![tactic(auto)]

ghost use Rattle.std.specs.Prelude.{◌≡◌, true, ◌+◌};
ghost use Rattle.basis.specs.Answer.{gives, refuses};
ghost use Rattle.value.specs.Values.{ok_offset};
ghost use Rattle.value.specs.Kinds.{ok_value};
ghost use Rattle.value.specs.Carried.{span_of};
ghost use Rattle.operation_ordering.specs.Order as the;

use operation_quantities::halves;
use std::cmp::Ordering;
use value::{Offset, Refusal, Span, Value, clocks, valid};
use value_instants::{spans, ticks};

// Months stand as so many ticks: only durations of one kind are compared.
fn up(v: Value, given: Offset) -> Span
    requires { (ok_value v ≡ true) × (ok_offset given ≡ true) }
    ensures { result ≡ span_of (the.up given v) }
{
    match v {
        Value::Moment(_, d) => ticks::instant(d, given),
        Value::DayTime(t) => halves::plus_ticks(t),
        Value::YearMonth(m) => clocks::span(halves::plus_half(m.negative, m.months as u64)),
    }
}

fn down(v: Value, given: Offset) -> Span
    requires { ok_value v ≡ true }
    ensures { result ≡ span_of (the.down given v) }
{
    match v {
        Value::Moment(_, _) => clocks::span(0),
        Value::DayTime(t) => halves::minus_ticks(t),
        Value::YearMonth(m) => clocks::span(halves::minus_half(m.negative, m.months as u64)),
    }
}

// One side of the comparison: a is less than b where a's up and b's down are less than b's up and a's down.
fn side(a: Value, b: Value, given: Offset) -> Span
    requires { (ok_value a ≡ true) × (ok_value b ≡ true) × (ok_offset given ≡ true) }
    ensures { result ≡ span_of (the.up given a + the.down given b) }
{
    let p = up(a, given);
    let q = down(b, given);
    spans::plus(p, q)
}

fn order_of(a: Value, b: Value, given: Offset) -> Result<Ordering, Refusal>
    requires { (ok_value a ≡ true) × (ok_value b ≡ true) × (ok_offset given ≡ true) }
    ensures { the.compared_meaning result ≡ gives (the.value_order given a b) }
{
    let p = side(a, b, given);
    let q = side(b, a, given);
    if spans::is_less(p, q) {
        return Ok(Ordering::Less);
    }
    if spans::is_less(q, p) {
        return Ok(Ordering::Greater);
    }
    Ok(Ordering::Equal)
}

fn refused(number: u8) -> Result<Ordering, Refusal>
    ensures { the.compared_meaning result ≡ refuses number }
{
    Err(Refusal::numbered(number))
}

// A value without zone counts in the given offset.
pub fn compare_in(a: Value, b: Value, given: Offset) -> Result<Ordering, Refusal>
    requires { ok_offset given ≡ true }
    ensures { the.compared_meaning result ≡ the.order_in given a b }
{
    if !valid::value_ok(a) {
        return refused(Refusal::OUTSIDE);
    }
    if !valid::value_ok(b) {
        return refused(Refusal::OUTSIDE);
    }
    if a.kind() != b.kind() {
        return refused(Refusal::WRONG_KIND);
    }
    order_of(a, b, given)
}
