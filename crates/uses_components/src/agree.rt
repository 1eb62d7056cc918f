//! A caller of `compose_agree`.

ghost use Rattle.std.specs.Prelude.{IfOk, IfSome};
ghost use Rattle.compose_agree.specs.Order.{IsOrder, all_of, is_ready, needs_of};

use compose_agree::{Order, order_of};
use std::alloc::Global;
use warg_values::Memory;

/// The order in which instances are made, each behind those that it is given. `None` where some are given to each other
/// in a circle.
pub fn instance_order(alloc: Global, given: &[Vec<usize>]) -> Result<Option<Vec<usize>>, Memory>
    ensures { IfOk result (λ found. IfSome found (λ order.
        IsOrder (is_ready (needs_of given.now)) (all_of (needs_of given.now)) order.items)) }
{
    match order_of(alloc, given)? {
        Order::Whole(order) => Ok(Some(order)),
        Order::Circle(_) => Ok(None),
    }
}
