// What the text alone settles of a condition's parts: which kinds fit each operation (document 01, "Conditions").
#![tactic(auto)]

ghost use Rattle.std.specs.Prelude.{◌≡◌};
ghost use Rattle.condition_sorts.specs.Sorts as the;

use condition_operators::{Role, joins, role_of};
use condition_symbols::Op;
use operation_casting::casts_to;
use value::Kind;
use value::kinds::{is_clocked, is_dated, is_moment};

// What the text alone settles of a part: that kinds do not fit, a truth value, or a value of a kind.
#[derive(Clone, Copy)]
pub enum Sort {
    Clash,
    Truth,
    Of(Kind),
}

// Whether a kind takes a duration of another.
#[tactic(auto, unfolding(crate::specs::Sorts::takes))]
fn takes(kind: Kind, by: Kind) -> bool
    ensures { result ≡ the.takes kind by }
{
    match by {
        Kind::DayTimeDuration => is_dated(kind) || is_clocked(kind),
        Kind::YearMonthDuration => is_dated(kind),
        _ => false,
    }
}

#[tactic(auto, using(value::proofs::RowLaws::kinds_same), unfolding(crate::specs::Sorts::compared_kinds))]
fn compared(a: Kind, b: Kind) -> Sort
    ensures { result ≡ the.compared_kinds a b }
{
    if a == b { Sort::Truth } else { Sort::Clash }
}

#[tactic(auto, using(value::proofs::RowLaws::kinds_same), unfolding(crate::specs::Sorts::added_kinds))]
fn added(a: Kind, b: Kind) -> Sort
    ensures { result ≡ the.added_kinds a b }
{
    if takes(a, b) {
        Sort::Of(a)
    } else if takes(b, a) {
        Sort::Of(b)
    } else if !is_moment(a) && a == b {
        Sort::Of(a)
    } else {
        Sort::Clash
    }
}

#[tactic(auto, using(value::proofs::RowLaws::kinds_same), unfolding(crate::specs::Sorts::less_kinds))]
fn less(a: Kind, b: Kind) -> Sort
    ensures { result ≡ the.less_kinds a b }
{
    if takes(a, b) {
        Sort::Of(a)
    } else if a != b {
        Sort::Clash
    } else if is_moment(a) {
        Sort::Of(Kind::DayTimeDuration)
    } else {
        Sort::Of(a)
    }
}

fn kinds(role: Role, a: Kind, b: Kind) -> Sort
    ensures { result ≡ the.kinds_of role a b }
{
    match role {
        Role::Joins(_) => Sort::Clash,
        Role::Compares(_, _, _) => compared(a, b),
        Role::Adds => added(a, b),
        Role::Subtracts => less(a, b),
    }
}

// The sort of two parts with an operator between.
pub fn two(op: Op, a: Sort, b: Sort) -> Sort
    ensures { result ≡ the.sort_two op a b }
{
    let role = role_of(op);
    match (a, b) {
        (Sort::Truth, Sort::Truth) if joins(role) => Sort::Truth,
        (Sort::Of(j), Sort::Of(k)) => kinds(role, j, k),
        _ => Sort::Clash,
    }
}

// The sort of a part that is cast.
pub fn cast(kind: Kind, a: Sort) -> Sort
    ensures { result ≡ the.sort_cast kind a }
{
    match a {
        Sort::Of(j) if casts_to(j, kind) => Sort::Of(kind),
        _ => Sort::Clash,
    }
}

// The sort of a part times a whole number.
pub fn times(a: Sort) -> Sort
    ensures { result ≡ the.sort_times a }
{
    match a {
        Sort::Of(k) if !is_moment(k) => Sort::Of(k),
        _ => Sort::Clash,
    }
}
