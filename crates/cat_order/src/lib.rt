//! Puts items in the one order in which each stands behind what it depends on, or names an item on a cycle.
#![tactic(auto)]

ghost use Rattle.std.specs.Prelude.{◌≡◌, length, IfOk, IfErr};
ghost use Rattle.cat_order.specs.Order.{AreItems, IsOrder};
ghost use Rattle.cat_order.specs.Cause.{HasCause};

mod cycle;
mod dependents;
mod laws;
mod listing;
mod refusal;

use crate::cycle::item_on_cycle;
use crate::listing::{Listing, list_items};
use cat_pos::Numbers;
pub use laws::{
    a_cycle_leaves_no_order, the_order_is_computed, the_order_is_one, the_order_lists_items,
    the_order_puts_dependencies_first,
};
pub use refusal::OrderRefusal;
use std::alloc::Global;

/// The order of `count` items, numbered from 0. `deps` has for each item what it depends on, in any
/// order, and what stands there more than once counts once. For n items it takes time in proportion
/// to n log n and to the number of dependencies.
pub fn order(alloc: Global, count: u32, deps: &[Numbers]) -> Result<Numbers, OrderRefusal>
    requires one_list_each { length deps.now ≡ count }
    requires items { AreItems deps.now }
    ensures order { IfOk result (IsOrder deps.now) }
    ensures cause { IfErr result (HasCause deps.now) }
{
    let Listing { listed, unmet } = list_items(alloc, deps)?;
    for item in 0..count {
        if unmet[item as usize] > 0 {
            let on_cycle = item_on_cycle(alloc, deps, &unmet, item)?;
            return Err(OrderRefusal::Cycle(on_cycle));
        }
    }
    Ok(listed)
}
