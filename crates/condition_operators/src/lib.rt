// What each operator of a condition does (document 01, "Conditions").
#![tactic(auto)]

ghost use Rattle.std.specs.Prelude.{◌≡◌};
ghost use Rattle.condition_operators.specs.Roles as the;

use condition_symbols::Op;

// What an operator does. Joins: it joins two truth values, and this one on the left settles it. Compares: whether it
// holds of a left value that is less than the right one, of one that is equal, and of one that is greater.
#[derive(Clone, Copy)]
pub enum Role {
    Joins(bool),
    Compares(bool, bool, bool),
    Adds,
    Subtracts,
}

pub fn role_of(op: Op) -> Role
    ensures { result ≡ the.role_of op }
{
    match op {
        Op::Or => Role::Joins(true),
        Op::And => Role::Joins(false),
        Op::Eq => Role::Compares(false, true, false),
        Op::Ne => Role::Compares(true, false, true),
        Op::Lt => Role::Compares(true, false, false),
        Op::Le => Role::Compares(true, true, false),
        Op::Gt => Role::Compares(false, false, true),
        Op::Ge => Role::Compares(false, true, true),
        Op::Plus => Role::Adds,
        Op::Minus => Role::Subtracts,
    }
}

// Whether an operator joins truth values.
pub fn joins(role: Role) -> bool
    ensures { result ≡ the.joins role }
{
    matches!(role, Role::Joins(_))
}

// Whether a truth value left of an operator settles it.
pub fn settles(role: Role, left: bool) -> bool
    ensures { result ≡ the.settles role left }
{
    match role {
        Role::Joins(by) => left == by,
        _ => false,
    }
}
