// The trees of a table's targets.
ghost use Rattle.std.specs.Prelude.{◌≡◌, ◌<◌, IfOk, IfErr, IfSome, length, map, slice_get};
ghost use Rattle.cat_cert.specs.Uncovered.{everything};
ghost use Rattle.cat_cert.specs.declared.certificate.Version.TheVariants as version;
ghost use Rattle.cat_cert.specs.Lines.{TargetDue};
ghost use Rattle.cat_cert.specs.ReadTrees.{AreReadTrees};
ghost use Rattle.cat_cert.specs.inside.Checkable.{IsCheckable, NamesFirst, last_line};
ghost use Rattle.cat_dead.specs.Winners.{AreKnown, open_lines, winners_of};
ghost use Rattle.cat_dead.specs.inside.Plain.{IsPlain, IsWhole};
ghost use Rattle.cat_dead.specs.inside.Told.{IsAdded};

use crate::opened::add_winners;
use crate::plain::plain_nodes;
use crate::walking::judged_leaves;
use cat_cert::{CertRefusal, CertTree, atoms_of_targets_are_there, highest};
use cat_guard::{Table, whole_region};
use cat_pos::Positions;
use cat_region::Region;
use cat_walk::trees_split_as_they_are_written;
use std::alloc::Global;

/// Adds the winners of the leaves of a target's tree, where none of these is open. The region, which admits every
/// valuation, is left as it was.
fn add_target(
    alloc: Global,
    table: &Table,
    target: u32,
    tree: &CertTree,
    region: &mut Region,
    won: &mut Positions,
) -> Result<(), CertRefusal>
    requires target { target < length table.now.targets }
    requires whole { IsWhole table.now region.old }
    requires tree { IsCheckable (length table.now.atoms) region.old.room tree.now × IsPlain tree.now }
    ensures added { IfSome (slice_get table.now.targets target)
        (λ t. IsAdded table.now t tree.now won.old won.new result) }
    ensures region { region.new ≡ region.old }
{
    let nodes = plain_nodes(alloc, tree.tree.main.as_slice())?;
    let leaves = judged_leaves(alloc, table, target, nodes.as_slice(), region)?;
    let head = *tree.heads.at(0);
    let judged = table.targets.at(target as usize);
    add_winners(judged, head, leaves.as_slice(), won)
}

/// The winners of the leaves of the trees of a table's targets, where none of these leaves is open.
pub(crate) fn winners_in(
    alloc: Global,
    table: &Table,
    trees: &[CertTree],
) -> Result<Positions, CertRefusal>
    requires { AreReadTrees last_line version.One (map TargetDue table.now.targets) trees.now }
    ensures first { IfErr result (NamesFirst (open_lines table.now trees.now)) }
    ensures known { IfOk result (λ won. AreKnown table.now.atoms (everything table.now.terms) table.now.targets
        trees.now) }
    ensures won { IfOk result (λ won. won ≡ winners_of table.now trees.now) }
{
    trees_split_as_they_are_written();
    atoms_of_targets_are_there();
    let height = highest(alloc, trees)?;
    let mut region = whole_region(alloc, table, height)?;
    let mut won = Positions::new(alloc);
    for at in 0..trees.len() {
        // No memory holds more trees than there are numbers of targets.
        let Ok(target) = u32::try_from(at) else {
            return Err(CertRefusal::Memory);
        };
        add_target(alloc, table, target, &trees[at], &mut region, &mut won)?;
    }
    Ok(won)
}
