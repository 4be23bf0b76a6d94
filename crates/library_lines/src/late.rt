// Whether something comes later than is allowed: a computation of one's own over the library's calls, with its contract.
ghost use Rattle.std.specs.Prelude.{◌≡◌};
ghost use Rattle.value_instants.specs.Ticks.{utc};
ghost use Rattle.operation_ordering.specs.Order.{order_in};
ghost use Rattle.library_lines.specs.Late as the;

use operation::{compare, minus};
use std::cmp::Ordering;
use value::{Refusal, Value};

// Whether a delay is greater than what is allowed. The comparison can refuse: 16 or 9.
fn beyond(delay: Value, allowed: Value) -> Result<bool, Refusal>
    ensures { the.lateness_meaning result ≡ the.whether (order_in utc delay allowed) }
{
    Ok(compare(delay, allowed)?.is_gt())
}

// Whether the second value is later than the first by more than is allowed. The difference can be refused: 16, 9 or 4.
pub fn late(planned: Value, actual: Value, allowed: Value) -> Result<bool, Refusal>
    ensures { the.lateness_meaning result ≡ the.late_of planned actual allowed }
{
    beyond(minus(actual, planned)?, allowed)
}
