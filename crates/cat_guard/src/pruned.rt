// What is still live of a target in a region.
ghost use Rattle.std.specs.Prelude.{◌≡◌, ◌<◌, nat_lt, ℕ, Bool, Option, All, IsTrue, IfOk, IfSome, length, slice_get};
ghost use Rattle.std.specs.List.{list_all};
ghost use Rattle.cat_guard.specs.declared.table.TableTarget.{TableTarget as TargetSeen};
ghost use Rattle.cat_guard.specs.Judged.{answers_in};
ghost use Rattle.cat_guard.specs.Soundness.{are_below};
ghost use Rattle.cat_guard.specs.Valuations.{dims_of};
ghost use Rattle.cat_guard.specs.Conjuncts.{AreOfDefs};
ghost use Rattle.cat_guard.specs.Live.{IsLiveOf, names_defs};
ghost use Rattle.cat_guard.specs.inside.Telling.{are_cuts_of};
ghost use Rattle.cat_guard.specs.inside.Pruned.{DefsStandFor, GroupsStandFor, GroupStandsFor, IsOut, IsGone};

use crate::conjuncts::{DefConjuncts, conjuncts_at, has_broken};
use crate::live::{LiveGroup, LiveGroups};
use crate::truth::is_so;
use crate::{Atom, Table, TableTarget};
use cat_pos::{List, Numbers};
use cat_region::Region;
use std::alloc::{AllocError, Global};

/// Whether a region is seen to know a definition to be false: of a long guard by the term that was narrowed last.
fn is_out(
    region: &Region,
    atoms: &[Atom],
    target: &TableTarget,
    conjuncts: &DefConjuncts,
    number: u32,
) -> bool
    requires cuts { IsTrue (are_cuts_of region.now.dims atoms.now) }
    requires number { number < length target.now.defs }
    requires conjuncts { AreOfDefs target.now.defs conjuncts.now }
    ensures { IsTrue result → IsOut target.now (answers_in atoms.now region.now) number }
{
    let joined = conjuncts_at(conjuncts, number);
    if has_broken(region, atoms, joined) {
        return true;
    }
    if !joined.is_empty() {
        return false;
    }
    is_so(region, atoms, &target.defs.at(number as usize).guard, false)
}

/// Those of some definitions that a region doesn't know to be false.
fn pruned_defs(
    alloc: Global,
    region: &Region,
    atoms: &[Atom],
    target: &TableTarget,
    conjuncts: &DefConjuncts,
    numbers: &[u32],
) -> Result<Numbers, AllocError>
    requires cuts { IsTrue (are_cuts_of region.now.dims atoms.now) }
    requires numbers { IsTrue (are_below (length target.now.defs) numbers.now) }
    requires conjuncts { AreOfDefs target.now.defs conjuncts.now }
    ensures { IfOk result (DefsStandFor target.now (answers_in atoms.now region.now) numbers.now) }
{
    let mut left = List::new(alloc);
    for &number in numbers {
        if is_out(region, atoms, target, conjuncts, number) {
            continue;
        }
        left.push(number)?;
    }
    Ok(left)
}

/// Whether nothing is live of a group.
fn is_gone(group: &LiveGroup) -> bool
    ensures { (t : TargetSeen) → IsTrue result → IsGone t group.now }
{
    if !group.excepted_by.is_empty() {
        return false;
    }
    group.defs.is_empty()
}

/// What is live of a group.
#[cycle(pruned)]
fn pruned_group(
    alloc: Global,
    region: &Region,
    atoms: &[Atom],
    target: &TableTarget,
    conjuncts: &DefConjuncts,
    group: &LiveGroup,
) -> Result<LiveGroup, AllocError>
    requires cuts { IsTrue (are_cuts_of region.now.dims atoms.now) }
    requires named { IsTrue (names_defs (length target.now.defs) group.now) }
    requires conjuncts { AreOfDefs target.now.defs conjuncts.now }
    ensures { IfOk result (GroupStandsFor target.now (answers_in atoms.now region.now) group.now) }
{
    let excepted_by = pruned_groups(alloc, region, atoms, target, conjuncts, &group.excepted_by)?;
    let defs = pruned_defs(
        alloc,
        region,
        atoms,
        target,
        conjuncts,
        group.defs.as_slice(),
    )?;
    Ok(LiveGroup { excepted_by, defs })
}

/// Those of some groups of which something is live.
#[cycle(pruned)]
fn pruned_groups(
    alloc: Global,
    region: &Region,
    atoms: &[Atom],
    target: &TableTarget,
    conjuncts: &DefConjuncts,
    groups: &LiveGroups,
) -> Result<LiveGroups, AllocError>
    requires cuts { IsTrue (are_cuts_of region.now.dims atoms.now) }
    requires named { IsTrue (list_all (names_defs (length target.now.defs)) groups.now) }
    requires conjuncts { AreOfDefs target.now.defs conjuncts.now }
    ensures { IfOk result (GroupsStandFor target.now (answers_in atoms.now region.now) groups.now) }
{
    let mut left = List::new(alloc);
    for group in groups.as_slice() {
        let pruned = pruned_group(alloc, region, atoms, target, conjuncts, group)?;
        if is_gone(&pruned) {
            continue;
        }
        left.push(pruned)?;
    }
    Ok(left)
}

/// What is still live of a target in a region, of what was live: of this alone it looks at the guards, and in a long
/// one only for a conjunct of the term that was narrowed last.
pub(crate) fn still_live(
    alloc: Global,
    table: &Table,
    target: u32,
    region: &Region,
    conjuncts: &DefConjuncts,
    live: &LiveGroups,
) -> Result<LiveGroups, AllocError>
    requires target { target < length table.now.targets }
    requires dims { region.now.dims ≡ dims_of table.now.terms }
    requires conjuncts { IfSome (slice_get table.now.targets target) (λ t. AreOfDefs t.defs conjuncts.now) }
    requires live { IfSome (slice_get table.now.targets target)
        (λ t. IsLiveOf t (answers_in table.now.atoms region.now) live.now) }
    ensures { IfOk result (λ live. IfSome (slice_get table.now.targets target)
        (λ t. IsLiveOf t (answers_in table.now.atoms region.now) live)) }
{
    let atoms = table.atoms.as_slice();
    let target = table.targets.at(target as usize);
    pruned_groups(alloc, region, atoms, target, conjuncts, live)
}
