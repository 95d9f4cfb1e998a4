// Lists the items that can be listed, in order.
ghost use Rattle.std.specs.Prelude.{◌≡◌, ◌<◌, ◌≤◌, ℕ, length, map, slice_index, IfOk, OnOk};
ghost use Rattle.cat_order.specs.Order.{AreItems, times};
ghost use Rattle.cat_order.specs.inside.Steps.{AddsThoseAtZero, CountsDown, HasStopped, HasThoseAtZero};

use crate::dependents::dependents_of_each;
use cat_pos::{ENTRIES_BOUND, List, Numbers};
use std::alloc::{AllocError, Global};
use std::collections::BTreeSet;

/// The items that can be listed, and for each item the number of its dependencies that cannot.
#[derive(Drop)]
pub struct Listing {
    pub listed: Numbers,
    pub unmet: Vec<usize>,
}

fn dependency_counts(alloc: Global, deps: &[Numbers]) -> Result<Vec<usize>, AllocError>
    ensures { IfOk result (λ counts. counts.items ≡ map length deps.now) }
{
    deps.iter()
        .map(|dependencies| dependencies.len())
        .collect(alloc)
}

fn items_at_zero(alloc: Global, unmet: &[usize]) -> Result<BTreeSet<u32>, AllocError>
    requires { length unmet.now < ENTRIES_BOUND }
    ensures { IfOk result (HasThoseAtZero unmet.now) }
{
    let mut ready = BTreeSet::new(alloc);
    for (item, &count) in unmet.iter().enumerate() {
        if count == 0 {
            ready.insert(item as u32)?;
        }
    }
    Ok(ready)
}

/// Takes one off the count of each of these items, as often as it stands there, and adds those that
/// come to 0 to `ready`.
fn count_down(
    items: &[u32],
    unmet: &mut [usize],
    ready: &mut BTreeSet<u32>,
) -> Result<(), AllocError>
    requires { (item : ℕ) → times items.now item ≤ slice_index unmet.old item }
    ensures counts { OnOk result (CountsDown items.now unmet.old unmet.new) }
    ensures ready { OnOk result (AddsThoseAtZero items.now unmet.new ready.old ready.new) }
{
    for &item in items {
        let place = item as usize;
        unmet[place] -= 1;
        if unmet[place] == 0 {
            ready.insert(item)?;
        }
    }
    Ok(())
}

/// Lists items for as long as one may come next.
pub fn list_items(alloc: Global, deps: &[Numbers]) -> Result<Listing, AllocError>
    requires few { length deps.now < ENTRIES_BOUND }
    requires items { AreItems deps.now }
    ensures { IfOk result (λ listing. HasStopped deps.now listing.listed listing.unmet.items) }
{
    let dependents = dependents_of_each(alloc, deps)?;
    let mut unmet = dependency_counts(alloc, deps)?;
    let mut ready = items_at_zero(alloc, &unmet)?;
    let mut listed = List::new(alloc);
    while let Some(item) = ready.pop_first() {
        listed.push(item)?;
        count_down(dependents[item as usize].as_slice(), &mut unmet, &mut ready)?;
    }
    Ok(Listing { listed, unmet })
}
