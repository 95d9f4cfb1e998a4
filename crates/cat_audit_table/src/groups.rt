// The groups of a target by the places of their definitions.
ghost use Rattle.std.specs.Prelude.{◌≡◌, ◌<◌, IfOk, length, map, slice_get};
ghost use Rattle.cat_pos.specs.declared.limits.TheConstants.{ENTRIES_BOUND};
ghost use Rattle.cat_sound.specs.Roots.{is_first_root, root_numbers};
ghost use Rattle.cat_audit_table.specs.inside.Placed.{Ascend, place_in, group_by_places};

use cat_guard::{GuardGroup, GuardGroups};
use cat_pos::{ENTRIES_BOUND, List, Numbers};
use cat_scope::{Def, Except, ForestGroup};
use std::alloc::{AllocError, Global};

/// Where a number stands among others.
fn place_in(number: u32, numbers: &[u32]) -> u32
    requires few { length numbers.now < ENTRIES_BOUND }
    requires ascend { Ascend numbers.now }
    ensures { result ≡ place_in number numbers.now }
{
    match numbers.binary_search(&number) {
        Ok(place) => place as u32,
        Err(_) => numbers.len() as u32,
    }
}

/// Where some numbers stand among others.
fn places_in(alloc: Global, of: &[u32], numbers: &[u32]) -> Result<Numbers, AllocError>
    requires few { length numbers.now < ENTRIES_BOUND }
    requires ascend { Ascend numbers.now }
    ensures { IfOk result (λ places. places ≡ map (λ n. place_in n numbers.now) of.now) }
{
    let mut places = List::new(alloc);
    for &number in of {
        places.push(place_in(number, numbers))?;
    }
    Ok(places)
}

/// The groups of a target whose definitions have these numbers. It takes a logarithm of their count for each.
pub fn guard_groups(
    alloc: Global,
    numbers: &[u32],
    groups: &[ForestGroup],
) -> Result<GuardGroups, AllocError>
    requires few { length numbers.now < ENTRIES_BOUND }
    requires ascend { Ascend numbers.now }
    ensures { IfOk result (λ made. made ≡ map (group_by_places numbers.now) groups.now) }
{
    let mut made = List::new(alloc);
    for group in groups {
        let defs = places_in(alloc, group.defs.as_slice(), numbers)?;
        let excepted_by = List::from_slice(alloc, group.excepted_by.as_slice())?;
        made.push(GuardGroup { defs, excepted_by })?;
    }
    Ok(made)
}

/// Whether a group is no exception: it is what its first definition is.
fn is_root(defs: &[Def], group: &ForestGroup) -> bool
    ensures { result ≡ is_first_root defs.now group.now.defs }
{
    let Some(&first) = group.defs.as_slice().first() else {
        return false;
    };
    match defs.get(first as usize) {
        Some(def) => matches!(def.except, Except::No),
        None => false,
    }
}

/// The groups that are no exceptions.
pub fn roots(alloc: Global, defs: &[Def], groups: &[ForestGroup]) -> Result<Numbers, AllocError>
    requires { length groups.now < ENTRIES_BOUND }
    ensures { IfOk result (λ roots. roots ≡ root_numbers defs.now 0 groups.now) }
{
    let mut roots = List::new(alloc);
    for (number, group) in groups.iter().enumerate() {
        if is_root(defs, group) {
            roots.push(number as u32)?;
        }
    }
    Ok(roots)
}
