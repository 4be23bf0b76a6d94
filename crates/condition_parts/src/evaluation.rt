// What the operations give of what the parts below them give.
ghost use Rattle.std.specs.Prelude.{◌≡◌};
ghost use Rattle.basis.specs.Answer.{gives};
ghost use Rattle.operation_ordering.specs.Order as orders;
ghost use Rattle.condition_givens.specs.Carried.{given_of};
ghost use Rattle.condition_parts.specs.Evaluation as its;
ghost use Rattle.condition_parts.specs.Carried as the;

use condition_givens::{Given, Mode, refused, valued};
use condition_operators::{Role, joins, role_of, settles};
use condition_symbols::Op;
use std::cmp::Ordering;
use value::{Kind, Offset, Refusal, Value};

pub fn cast(kind: Kind, a: Given) -> Given
    ensures { result ≡ the.onto_given a (its.cast_datum kind) }
{
    match a {
        Given::Is(v) => valued(operation::cast(v, kind)),
        Given::Truth(_) => refused(Refusal::WRONG_KIND),
        Given::Nothing | Given::Refused(_) => a,
    }
}

pub fn times(negative: bool, n: u32, a: Given) -> Given
    ensures { result ≡ the.onto_given a (its.times_datum negative n) }
{
    match a {
        Given::Is(v) => valued(operation::times(v, negative, n)),
        Given::Truth(_) => refused(Refusal::WRONG_KIND),
        Given::Nothing | Given::Refused(_) => a,
    }
}

// Whether a comparison holds of an order.
fn holds(less: bool, equal: bool, greater: bool, o: Ordering) -> bool
    ensures { Given.Truth result ≡ given_of (its.tested less equal greater (gives (orders.ordered o))) }
{
    match o {
        Ordering::Less => less,
        Ordering::Equal => equal,
        Ordering::Greater => greater,
    }
}

// What a comparison gives of the order that was answered.
fn tested(less: bool, equal: bool, greater: bool, order: Result<Ordering, Refusal>) -> Given
    ensures { result ≡ given_of (its.tested less equal greater (orders.compared_meaning order)) }
{
    match order {
        Ok(o) => Given::Truth(holds(less, equal, greater, o)),
        Err(r) => Given::Refused(r),
    }
}

// An operator between two values; one without zone counts in the zone given.
fn of_values(role: Role, a: Value, b: Value, zone: Offset) -> Given
    ensures { result ≡ given_of (its.of_values zone role a b) }
{
    match role {
        Role::Joins(_) => refused(Refusal::WRONG_KIND),
        Role::Compares(less, equal, greater) => tested(
            less,
            equal,
            greater,
            operation::compare_for(a, b, zone),
        ),
        Role::Adds => valued(operation::plus(a, b)),
        Role::Subtracts => valued(operation::minus_for(a, b, zone)),
    }
}

// Two parts with an operator between: the left one's refusal first.
pub fn two(op: Op, a: Given, b: Given, zone: Offset) -> Given
    ensures { result ≡ the.two_given zone op a b }
{
    let role = role_of(op);
    match (a, b) {
        (Given::Refused(_), _) => a,
        (Given::Truth(x), _) if settles(role, x) => a,
        (_, Given::Nothing | Given::Refused(_)) => b,
        (Given::Nothing, _) => a,
        (Given::Is(v), Given::Is(w)) => of_values(role, v, w, zone),
        (Given::Truth(_), Given::Truth(_)) if joins(role) => b,
        _ => refused(Refusal::WRONG_KIND),
    }
}

// The mode of what stands right of an operator.
pub fn after(op: Op, mode: Mode, a: Given) -> Mode
    ensures { result ≡ the.after_given op mode a }
{
    match (mode, a) {
        (Mode::Live, Given::Truth(x)) if settles(role_of(op), x) => Mode::Dead,
        _ => mode,
    }
}
