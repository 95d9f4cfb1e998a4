// The walk through the trees of a certificate.
ghost use Rattle.std.specs.Prelude.{◌≡◌, ◌<◌, IfOk, IfErr, IfSome, length, slice_get};
ghost use Rattle.cat_scope.specs.Names.{AllHave};
ghost use Rattle.cat_guard.specs.Trees.{IsCitedClosed, expanded};
ghost use Rattle.cat_guard.specs.Valuations.{dims_of};
ghost use Rattle.cat_cert.specs.Uncovered.{everything};
ghost use Rattle.cat_cert.specs.Uncovered.{IsCovered, AreCovered, AllCovered};
ghost use Rattle.cat_cert.specs.Uncovered.{tree_uncovered, targets_uncovered, uncovered};
ghost use Rattle.cat_cert.specs.Checked.{HasClosedTree, HaveClosedTrees};
ghost use Rattle.cat_cert.specs.inside.Checkable.{IsCheckable, AreOfTable, AreOfTables, NamesFirst, found_in};

use crate::heights::highest;
use crate::lines::line_of;
use crate::{CertRefusal, CertTree, atoms_of_targets_are_there};
use cat_guard::{Table, room_closes_no_tree, whole_region};
use cat_region::Region;
use cat_walk::{WalkRefusal, trees_split_as_they_are_written, walk};
use std::alloc::Global;

/// Whether the tree of a target is closed in a region, which is left as it was.
fn check_tree(
    alloc: Global,
    table: &Table,
    target: u32,
    tree: &CertTree,
    region: &mut Region,
) -> Result<(), CertRefusal>
    requires target { target < length table.now.targets }
    requires dims { region.old.dims ≡ dims_of table.now.terms }
    requires tree { IsCheckable (length table.now.atoms) region.old.room tree.now }
    ensures first { IfSome (slice_get table.now.targets target) (λ t. IfErr result
        (NamesFirst (tree_uncovered table.now.atoms region.old t tree.now))) }
    ensures covered { IfSome (slice_get table.now.targets target) (λ t. IfOk result (λ u.
        IsCovered table.now.atoms region.old t (expanded tree.now.tree))) }
    ensures closed { IfSome (slice_get table.now.targets target) (λ t. IfOk result (λ u.
        IsCitedClosed table.now.atoms t region.old tree.now.tree)) }
    ensures region { region.new ≡ region.old }
{
    match walk(alloc, table, target, &tree.tree, region) {
        Ok(()) => Ok(()),
        Err(WalkRefusal::NotCovered(place)) => {
            Err(CertRefusal::NotCovered(line_of(&tree.heads, place)))
        }
        Err(WalkRefusal::Memory) => Err(CertRefusal::Memory),
    }
}

/// Whether the trees of a table's targets are closed in the region that admits every valuation.
fn check_table(alloc: Global, table: &Table, trees: &[CertTree]) -> Result<(), CertRefusal>
    requires { AreOfTable table.now trees.now }
    ensures first { IfErr result (NamesFirst (targets_uncovered table.now.atoms (everything table.now.terms)
        table.now.targets trees.now)) }
    ensures covered { IfOk result (λ u. AreCovered table.now.atoms (everything table.now.terms) table.now.targets
        (found_in trees.now)) }
    ensures closed { IfOk result (λ u. AllHave (HasClosedTree table.now) table.now.targets) }
{
    trees_split_as_they_are_written();
    atoms_of_targets_are_there();
    room_closes_no_tree();
    let height = highest(alloc, trees)?;
    let mut region = whole_region(alloc, table, height)?;
    for at in 0..trees.len() {
        // No memory holds more trees than there are numbers of targets.
        let Ok(target) = u32::try_from(at) else {
            return Err(CertRefusal::Memory);
        };
        check_tree(alloc, table, target, &trees[at], &mut region)?;
    }
    Ok(())
}

/// Whether the trees of all targets are closed.
pub(crate) fn check_trees(
    alloc: Global,
    tables: &[Table],
    trees: &[CertTree],
) -> Result<(), CertRefusal>
    requires { AreOfTables tables.now trees.now }
    ensures first { IfErr result (NamesFirst (uncovered tables.now trees.now)) }
    ensures covered { IfOk result (λ u. AllCovered tables.now (found_in trees.now)) }
    ensures closed { IfOk result (λ u. HaveClosedTrees tables.now) }
{
    let mut at = 0;
    for table in tables {
        let end = at + table.targets.len();
        check_table(alloc, table, &trees[at..end])?;
        at = end;
    }
    Ok(())
}
