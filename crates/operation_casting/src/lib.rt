// Which kind casts to which, and what it keeps.
#![tactic(auto)]

ghost use Rattle.std.specs.Prelude.{◌≡◌, true};
ghost use Rattle.basis.specs.Choice.{pick};
ghost use Rattle.operation_casting.specs.Casts as the;

use value::{Kind, OwnParts, Value, kinds};

// Where the first has it, the second has it too.
fn shares(first: bool, second: bool) -> bool
    ensures { result ≡ pick first second true }
{
    !first || second
}

// Every part of the first is one of the second.
#[tactic(auto, unfolding(basis::specs::Choice::both, basis::specs::Choice::every, crate::specs::Casts::own_within))]
fn within(first: OwnParts, second: OwnParts) -> bool
    ensures { result ≡ the.own_within first second }
{
    shares(first.year, second.year)
        && shares(first.month, second.month)
        && shares(first.day, second.day)
        && shares(first.clock, second.clock)
}

// The parts of one of the kinds are parts of the other.
fn one_within(from: Kind, to: Kind) -> bool
    ensures { result ≡ pick (the.parts_within to from) true (the.parts_within from to) }
{
    let own = kinds::parts(from);
    let wanted = kinds::parts(to);
    within(wanted, own) || within(own, wanted)
}

#[tactic(auto, unfolding(basis::specs::Choice::both, basis::specs::Choice::every, crate::specs::Casts::casts_across))]
fn casts_across(from: Kind, to: Kind) -> bool
    ensures { result ≡ the.casts_across from to }
{
    kinds::is_dated(from) && kinds::is_moment(to) && one_within(from, to)
}

#[tactic(auto, unfolding(crate::specs::Casts::casts_to))]
pub fn casts_to(from: Kind, to: Kind) -> bool
    ensures { result ≡ the.casts_to from to }
{
    from == to || casts_across(from, to)
}

#[tactic(auto, unfolding(crate::specs::Casts::cast_to))]
pub fn cast_to(kind: Kind, a: Value) -> Value
    ensures { result ≡ the.cast_to kind a }
{
    match a {
        Value::Moment(_, d) => Value::Moment(kind, kinds::kept(kind, d)),
        Value::DayTime(t) => Value::DayTime(t),
        Value::YearMonth(m) => Value::YearMonth(m),
    }
}
