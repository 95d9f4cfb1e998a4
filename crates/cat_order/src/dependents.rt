// Which items depend on each item.
ghost use Rattle.std.specs.Prelude.{◌≡◌, ◌<◌, length, All, IfOk, OnOk};
ghost use Rattle.cat_order.specs.Order.{AreItems};
ghost use Rattle.cat_order.specs.inside.Steps.{AddsDependent, AreDependents};

use cat_pos::{ENTRIES_BOUND, Numbers, empty_lists};
use std::alloc::{AllocError, Global};

fn add_dependent(
    dependents: &mut [Numbers],
    item: u32,
    dependencies: &[u32],
) -> Result<(), AllocError>
    requires { All (λ dependency. dependency < length dependents.old) dependencies.now }
    ensures { OnOk result (AddsDependent dependents.old dependents.new item dependencies.now) }
{
    for &dependency in dependencies {
        dependents[dependency as usize].push(item)?;
    }
    Ok(())
}

/// The items that depend on each item, each as often as it says so.
pub fn dependents_of_each(alloc: Global, deps: &[Numbers]) -> Result<Vec<Numbers>, AllocError>
    requires few { length deps.now < ENTRIES_BOUND }
    requires items { AreItems deps.now }
    ensures one_each { IfOk result (λ dependents. length dependents.items ≡ length deps.now) }
    ensures turned { IfOk result (λ dependents. AreDependents deps.now dependents.items) }
{
    let mut dependents = empty_lists(alloc, deps.len())?;
    for (item, dependencies) in deps.iter().enumerate() {
        add_dependent(&mut dependents, item as u32, dependencies.as_slice())?;
    }
    Ok(dependents)
}
