// The table of a scope.
ghost use Rattle.std.specs.Prelude.{◌≡◌, ◌<◌, ◌≤◌, IfOk, IfSome, IsTrue, length, slice_get};
ghost use Rattle.cat_pos.specs.declared.limits.TheConstants.{ENTRIES_BOUND};
ghost use Rattle.cat_value.specs.Declarations.{most_cases};
ghost use Rattle.cat_scope.specs.Names.{AllHave};
ghost use Rattle.cat_scope.specs.Forests.{StandsFor};
ghost use Rattle.cat_guard.specs.Tables.{TablesScope};
ghost use Rattle.cat_audit_table.specs.inside.Added.{IsForestOf, IsSceneTable, targets_in};
ghost use Rattle.cat_except.specs.Parted.{ArePartedBy};

use crate::scene::TabledScope;
use crate::target::table_targets;
use crate::{AtomTable, Numbering, TermTable};
use cat_except::definitions_by_target;
use cat_guard::{Atoms, Table, TableTargets, Terms};
use cat_pos::ENTRIES_BOUND;
use cat_scope::{Forest, ForestTarget, Program, programs_are_well_formed};
use std::alloc::{AllocError, Global};

/// The targets of a scope, with what their guards ask.
fn targets_asked(
    scene: &TabledScope,
    forest: &[ForestTarget],
) -> Result<(TableTargets, Terms, Atoms), AllocError>
    requires few { length scene.now.defs.now < ENTRIES_BOUND }
    requires forest { AllHave (IsForestOf scene.now.defs.now) forest.now }
    ensures { IfOk result (λ r. IsSceneTable scene.now (targets_in forest.now) r.0 r.1 r.2) }
{
    let parted = definitions_by_target(scene.alloc, scene.defs)?;
    let mut numbering = Numbering::new(scene.alloc);
    let targets = table_targets(scene, &mut numbering, &parted, forest)?;
    let Numbering { terms, atoms } = numbering;
    let TermTable { terms, keys: _ } = terms;
    let AtomTable { atoms, keys: _ } = atoms;
    Ok((targets, terms, atoms))
}

/// The table of the scope of that number, by the forest of its exceptions. For n definitions it takes time in
/// proportion to n log n, to the targets and to the conditions, and copies each term once.
pub fn audit_table(
    alloc: Global,
    program: &Program,
    forest: &Forest,
    scope: u32,
) -> Result<Table, AllocError>
    requires scope { scope < length program.now.bodies }
    requires few { IfSome (slice_get program.now.bodies scope) (λ body. length body.defs < ENTRIES_BOUND) }
    requires cases { AllHave (λ e. length e.cases ≤ most_cases) program.now.decls.enumerations }
    requires stands { StandsFor program.now scope forest.now.targets }
    ensures { IfOk result (λ table. TablesScope program.now scope table) }
{
    programs_are_well_formed(program);
    let decls = program.decls();
    let decl = decls.scopes.at(scope as usize);
    let body = program.bodies.at(scope as usize);
    let scene = TabledScope {
        alloc,
        decls,
        items: decl.items.as_slice(),
        defs: body.defs.as_slice(),
    };
    let (targets, terms, atoms) = targets_asked(&scene, forest.targets.as_slice())?;
    let name = decl.name.copy()?;
    Ok(Table::from_parts(scope, name, terms, atoms, targets))
}
