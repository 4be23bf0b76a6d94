// The operations of document 01 on values: order, sums and differences, products, casts, adjustment to a zone.
// Each call checks what it is given (16), then the kinds (9), an adjustment's zone (5), and the result (4).
#![tactic(auto)]

ghost use Rattle.std.specs.Prelude.{◌≡◌};
ghost use Rattle.value.specs.Kinds.{meaning};
ghost use Rattle.value_instants.specs.Ticks.{utc};
ghost use Rattle.operation_ordering.specs.Order as order;
ghost use Rattle.operation_arithmetic.specs.Sums as sums;
ghost use Rattle.operation_arithmetic.specs.Products as products;
ghost use Rattle.operation_casting.specs.Casts as casts;
ghost use Rattle.operation_adjusting.specs.Adjustment as adjustment;

use operation_arithmetic::{products, sums};
use operation_quantities::results;
use std::cmp::Ordering;
use value::{Kind, Offset, Refusal, Value, valid};
use value_instants::ticks;

pub fn compare(a: Value, b: Value) -> Result<Ordering, Refusal>
    ensures { order.compared_meaning result ≡ order.order_in utc a b }
{
    operation_ordering::compare_in(a, b, ticks::utc())
}

// The same in any zone; one beyond its bounds is 16.
pub fn compare_for(a: Value, b: Value, zone: Offset) -> Result<Ordering, Refusal>
    ensures { order.compared_meaning result ≡ order.order_for zone a b }
{
    if !valid::offset_ok(zone) {
        return Err(Refusal::numbered(Refusal::OUTSIDE));
    }
    operation_ordering::compare_in(a, b, zone)
}

pub fn plus(a: Value, b: Value) -> Result<Value, Refusal>
    ensures { meaning result ≡ sums.plus_of a b }
{
    if !valid::value_ok(a) {
        return results::refused(Refusal::OUTSIDE);
    }
    if !valid::value_ok(b) {
        return results::refused(Refusal::OUTSIDE);
    }
    sums::sum(a, b)
}

pub fn minus(a: Value, b: Value) -> Result<Value, Refusal>
    ensures { meaning result ≡ sums.minus_in utc a b }
{
    sums::minus_in(a, b, ticks::utc())
}

// The same in any zone; one beyond its bounds is 16.
pub fn minus_for(a: Value, b: Value, zone: Offset) -> Result<Value, Refusal>
    ensures { meaning result ≡ sums.minus_for zone a b }
{
    if !valid::offset_ok(zone) {
        return results::refused(Refusal::OUTSIDE);
    }
    sums::minus_in(a, b, zone)
}

// The whole number is a sign and a magnitude.
pub fn times(a: Value, negative: bool, n: u32) -> Result<Value, Refusal>
    ensures { meaning result ≡ products.times_of a negative n }
{
    if !valid::value_ok(a) {
        return results::refused(Refusal::OUTSIDE);
    }
    if products::MAX_FACTOR < n {
        return results::refused(Refusal::OUTSIDE);
    }
    products::product(a, negative, n)
}

pub fn cast(a: Value, kind: Kind) -> Result<Value, Refusal>
    ensures { meaning result ≡ casts.cast_of a kind }
{
    if !valid::value_ok(a) {
        return results::refused(Refusal::OUTSIDE);
    }
    if !operation_casting::casts_to(a.kind(), kind) {
        return results::refused(Refusal::WRONG_KIND);
    }
    Ok(operation_casting::cast_to(kind, a))
}

// To a zone given as a dayTimeDuration.
pub fn adjust(a: Value, zone: Value) -> Result<Value, Refusal>
    ensures { meaning result ≡ adjustment.adjust_of a zone }
{
    if !valid::value_ok(a) {
        return results::refused(Refusal::OUTSIDE);
    }
    if !valid::value_ok(zone) {
        return results::refused(Refusal::OUTSIDE);
    }
    operation_adjusting::value_to(a, zone)
}

// The zone removed; local fields stay.
pub fn unzone(a: Value) -> Result<Value, Refusal>
    ensures { meaning result ≡ adjustment.unzone_of a }
{
    if !valid::value_ok(a) {
        return results::refused(Refusal::OUTSIDE);
    }
    operation_adjusting::without_zone(a)
}
