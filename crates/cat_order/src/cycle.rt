// Finds an item on a cycle, from an item that waits for another.
ghost use Rattle.std.specs.Prelude.{◌≡◌, ◌<◌, ℕ, IsTrue, length, slice_index, All, IfOk};
ghost use Rattle.cat_order.specs.Order.{AreItems, dependencies_of, is_listed};
ghost use Rattle.cat_order.specs.inside.Steps.{any_waiting};
ghost use Rattle.cat_order.specs.Cycle.{IsOnCycle};

use cat_pos::Numbers;
use std::alloc::{AllocError, Global};

fn first_waiting(dependencies: &[u32], unmet: &[usize]) -> u32
    requires items { All (λ item. item < length unmet.now) dependencies.now }
    requires one_waits { IsTrue (any_waiting unmet.now dependencies.now) }
    ensures among { IsTrue (is_listed dependencies.now result) }
    ensures waits { 0 < slice_index unmet.now result }
{
    for &dependency in dependencies {
        if unmet[dependency as usize] > 0 {
            return dependency;
        }
    }
    unreachable!()
}

/// Goes from a waiting item to the first waiting one among its dependencies, and on from there, until
/// it comes to an item again.
pub fn item_on_cycle(
    alloc: Global,
    deps: &[Numbers],
    unmet: &[usize],
    start: u32,
) -> Result<u32, AllocError>
    requires items { AreItems deps.now }
    requires one_each { length unmet.now ≡ length deps.now }
    requires each_waits { (item : ℕ) → 0 < slice_index unmet.now item
        → IsTrue (any_waiting unmet.now (dependencies_of deps.now item)) }
    requires start_waits { 0 < slice_index unmet.now start }
    ensures { IfOk result (IsOnCycle deps.now) }
{
    let mut passed = vec![in alloc; false; deps.len()]?;
    let mut item = start;
    while !passed[item as usize] {
        passed[item as usize] = true;
        item = first_waiting(deps[item as usize].as_slice(), unmet);
    }
    Ok(item)
}
