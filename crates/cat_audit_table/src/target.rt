// The targets of a table.
ghost use Rattle.std.specs.Prelude.{◌≡◌, ◌<◌, IfOk, length};
ghost use Rattle.cat_pos.specs.declared.limits.TheConstants.{ENTRIES_BOUND};
ghost use Rattle.cat_scope.specs.Names.{AllHave};
ghost use Rattle.cat_except.specs.Parted.{ArePartedBy};
ghost use Rattle.cat_audit_table.specs.inside.Added.{AddsTarget, AddsTargets, IsForestOf, targets_in};

use crate::Numbering;
use crate::defs::guard_defs;
use crate::groups::{guard_groups, roots};
use crate::item::{is_function, item_pos, may_be_empty, target_name};
use crate::scene::TabledScope;
use cat_except::ByTarget;
use cat_guard::{TableTarget, TableTargets};
use cat_pos::{ENTRIES_BOUND, List};
use cat_scope::ForestTarget;
use std::alloc::AllocError;

/// A target with the guards of its definitions.
fn table_target(
    scene: &TabledScope,
    numbering: &mut Numbering,
    parted: &ByTarget,
    forest: &ForestTarget,
) -> Result<TableTarget, AllocError>
    requires few { length scene.now.defs.now < ENTRIES_BOUND }
    requires parted { ArePartedBy scene.now.defs.now parted.now.keys.keys parted.now.lists.items }
    requires forest { IsForestOf scene.now.defs.now forest.now }
    ensures { IfOk result (AddsTarget scene.now forest.now.target numbering.old numbering.new) }
{
    let target = forest.target;
    let numbers = parted.numbers(target);
    let groups = forest.groups.as_slice();
    let name = target_name(scene.alloc, scene.decls, scene.items, target)?;
    let defs = guard_defs(scene, numbering, numbers)?;
    let roots = roots(scene.alloc, scene.defs, groups)?;
    let groups = guard_groups(scene.alloc, numbers, groups)?;
    Ok(TableTarget {
        target,
        name,
        function: is_function(scene.items, target),
        may_be_empty: may_be_empty(scene.decls, scene.items, target),
        pos: item_pos(scene.items, target),
        defs,
        groups,
        roots,
    })
}

/// All targets, in the order of the forest.
pub fn table_targets(
    scene: &TabledScope,
    numbering: &mut Numbering,
    parted: &ByTarget,
    forest: &[ForestTarget],
) -> Result<TableTargets, AllocError>
    requires few { length scene.now.defs.now < ENTRIES_BOUND }
    requires parted { ArePartedBy scene.now.defs.now parted.now.keys.keys parted.now.lists.items }
    requires forest { AllHave (IsForestOf scene.now.defs.now) forest.now }
    ensures { IfOk result (AddsTargets scene.now (targets_in forest.now) numbering.old numbering.new) }
{
    let mut targets = List::new(scene.alloc);
    for target in forest {
        targets.push(table_target(scene, numbering, parted, target)?)?;
    }
    Ok(targets)
}
