//! The forest of a scope's exceptions, read off the labels of its definitions; or why they make none.
#![tactic(auto)]

ghost use Rattle.std.specs.Prelude.{◌≡◌, ◌<◌, length, slice_get, IfOk, IfErr, IfSome, OnOk};
ghost use Rattle.cat_scope.specs.Forests.{StandsFor, forest_of};
ghost use Rattle.cat_except.specs.Causes.{AreResolved, MakeForest, HasCause};
ghost use Rattle.cat_except.specs.Faults.{groups_of_each, groups_in};
ghost use Rattle.cat_except.specs.inside.Finding.{groups_at_each, AreGroupsOfEach};
ghost use Rattle.cat_except.specs.inside.Linked.{group_targets};

mod by_target;
mod chains;
mod excepted;
mod faults;
mod group_key;
mod groups;
mod laws;
mod linked;
mod lists;
mod refusal;
mod targets;

use crate::faults::{ExceptionFault, fault_in};
use crate::groups::Groups;
use crate::linked::{check_chains, forest_targets, link_each};
use crate::targets::targets_of;
pub use by_target::{ByTarget, definitions_by_target};
use cat_pos::{ENTRIES_BOUND, List};
use cat_scope::{Def, Forest, Program, programs_are_well_formed};
use cat_value::Target;
pub use laws::refused_scopes_make_no_forest;
pub use refusal::ExceptRefusal;
use std::alloc::{AllocError, Global};

/// The groups of each target.
fn groups_of_each(
    alloc: Global,
    defs: &[Def],
    targets: &[Target],
) -> Result<List<Groups>, AllocError>
    requires { length defs.now < ENTRIES_BOUND }
    ensures targets { IfOk result (λ groups. group_targets groups ≡ targets.now) }
    ensures groups { IfOk result (λ groups. groups_at_each defs.now groups ≡ groups_of_each defs.now targets.now) }
    ensures known { IfOk result (AreGroupsOfEach defs.now) }
{
    let table = definitions_by_target(alloc, defs)?;
    let mut groups = List::new(alloc);
    for &target in targets {
        groups.push(Groups::new(alloc, defs, target, table.numbers(target))?)?;
    }
    Ok(groups)
}

/// Refuses labels and exceptions that say of no group, or of two, what they are exceptions to.
fn check_labels(defs: &[Def], targets: &[Groups]) -> Result<(), ExceptRefusal>
    requires { AreGroupsOfEach defs.now targets.now }
    ensures resolved { OnOk result (AreResolved (groups_at_each defs.now targets.now)) }
    ensures cause { IfErr result (HasCause (groups_at_each defs.now targets.now)) }
{
    if let Some(pos) = fault_in(ExceptionFault::UnknownLabel, defs, targets) {
        return Err(ExceptRefusal::LabelUnknown(pos));
    }
    if let Some(pos) = fault_in(ExceptionFault::SplitLabel, defs, targets) {
        return Err(ExceptRefusal::LabelSplit(pos));
    }
    match fault_in(ExceptionFault::AmbiguousException, defs, targets) {
        Some(pos) => Err(ExceptRefusal::ExceptionAmbiguous(pos)),
        None => Ok(()),
    }
}

/// The forest of some targets.
fn forest_of(alloc: Global, defs: &[Def], targets: &[Target]) -> Result<Forest, ExceptRefusal>
    requires { length defs.now < ENTRIES_BOUND }
    ensures targets { IfOk result (λ forest. forest.targets ≡ forest_of defs.now targets.now) }
    ensures faultless { IfOk result (λ forest. MakeForest (groups_of_each defs.now targets.now)) }
    ensures cause { IfErr result (HasCause (groups_of_each defs.now targets.now)) }
{
    let groups = groups_of_each(alloc, defs, targets)?;
    check_labels(defs, groups.as_slice())?;
    let linked = link_each(alloc, defs, groups)?;
    check_chains(alloc, defs, linked.as_slice())?;
    Ok(Forest::from_parts(forest_targets(alloc, defs, linked)?))
}

/// The forest of the scope of that number. For n definitions and t targets it takes time in proportion to
/// n log n and to t.
pub fn forest(alloc: Global, program: &Program, scope: u32) -> Result<Forest, ExceptRefusal>
    requires scope { scope < length program.now.bodies }
    requires few { IfSome (slice_get program.now.bodies scope) (λ body. length body.defs < ENTRIES_BOUND) }
    ensures stands { IfOk result (λ forest. StandsFor program.now scope forest.targets) }
    ensures faultless { IfOk result (λ forest. MakeForest (groups_in program.now scope)) }
    ensures cause { IfErr result (HasCause (groups_in program.now scope)) }
{
    programs_are_well_formed(program);
    let targets = targets_of(alloc, program.decls(), scope, program.order_of(scope))?;
    forest_of(alloc, program.defs(scope), targets.as_slice())
}

#[cfg(test)]
mod tests;
