// The walk through the tree of a target.
ghost use Rattle.std.specs.Prelude.{◌≡◌, ◌<◌, ◌++◌, [], IfOk, OnOk, IfSome, List, length, slice_get};
ghost use Rattle.cat_guard.specs.Levels.{AreLiveTo};
ghost use Rattle.cat_guard.specs.Trees.{tree_of};
ghost use Rattle.cat_guard.specs.Valuations.{dims_of};
ghost use Rattle.cat_region.specs.declared.narrowing.Narrowing.{Narrowing as Narrowed};
ghost use Rattle.cat_region.specs.Sides.{IsAt};
ghost use Rattle.cat_walk.specs.Walkable.{IsWalkable};
ghost use Rattle.cat_cert.specs.Uncovered.{everything};
ghost use Rattle.cat_dead.specs.Leaves.{leaf_if, leaves_judged, split_of};

use crate::judged::{JudgedLeaf, JudgedLeaves};
use crate::leaf::judge_leaf;
use cat_guard::{Levels, Table, TreeNode, answer_atom};
use cat_region::{Region, undo_all};
use cat_walk::{keep_live, to_next_side};
use std::alloc::{AllocError, Global};

/// The atom of a split.
fn split_of(node: TreeNode) -> Option<usize>
    ensures { result ≡ split_of node }
{
    match node {
        TreeNode::Split(atom) => Some(atom),
        TreeNode::Leaf | TreeNode::Rest => None,
    }
}

/// Adds a node without sides to the judged leaves, if it is one.
fn add_leaf(
    alloc: Global,
    table: &Table,
    target: u32,
    region: &Region,
    levels: &Levels,
    place: usize,
    node: TreeNode,
    leaves: &mut JudgedLeaves,
) -> Result<(), AllocError>
    requires target { target < length table.now.targets }
    requires dims { region.now.dims ≡ dims_of table.now.terms }
    requires live { IfSome (slice_get table.now.targets target)
        (λ t. AreLiveTo table.now.atoms t region.now levels.now) }
    ensures { IfSome (slice_get table.now.targets target) (λ t. OnOk result
        (leaves.new ≡ leaves.old ++ leaf_if table.now.atoms t region.now place node)) }
{
    match node {
        TreeNode::Leaf => {
            let judged = judge_leaf(alloc, table, target, region, levels)?;
            leaves.push(JudgedLeaf {
                node: place,
                judged,
            })
        }
        TreeNode::Split(_) | TreeNode::Rest => Ok(()),
    }
}

/// Goes from node to node, and leaves the region where it ends.
fn walked(
    alloc: Global,
    table: &Table,
    target: u32,
    nodes: &[TreeNode],
    region: &mut Region,
) -> Result<JudgedLeaves, AllocError>
    requires target { target < length table.now.targets }
    requires dims { region.old.dims ≡ dims_of table.now.terms }
    requires tree { IsWalkable (length table.now.atoms) region.old.room (tree_of nodes.now) }
    ensures judged { IfSome (slice_get table.now.targets target) (λ t. IfOk result (λ leaves. leaves
        ≡ leaves_judged table.now.atoms t region.old nodes.now)) }
    ensures at { (path : List Narrowed) × IsAt region.old path region.new }
{
    let room = region.room();
    let mut leaves = JudgedLeaves::new(alloc);
    let mut levels = Levels::new(alloc, table, target)?;
    for place in 0..nodes.len() {
        let node = nodes[place];
        let Some(atom) = split_of(node) else {
            add_leaf(
                alloc,
                table,
                target,
                region,
                &levels,
                place,
                node,
                &mut leaves,
            )?;
            if !to_next_side(region, room, &mut levels) {
                return Ok(leaves);
            }
            continue;
        };
        keep_live(alloc, table, target, region, atom, &mut levels)?;
        answer_atom(table, region, atom, true);
    }
    Ok(leaves)
}

/// How a target is judged at the leaves of a tree, in their order, from the region that admits every valuation on,
/// which is left as it was. It costs a step for each node; and at each leaf whose region admits something, and each
/// split that parts one, a look at the guards of what may be live there.
pub fn judged_leaves(
    alloc: Global,
    table: &Table,
    target: u32,
    nodes: &[TreeNode],
    region: &mut Region,
) -> Result<JudgedLeaves, AllocError>
    requires target { target < length table.now.targets }
    requires whole { region.old.dims ≡ dims_of table.now.terms }
    requires none { region.old.narrowings ≡ [] }
    requires tree { IsWalkable (length table.now.atoms) region.old.room (tree_of nodes.now) }
    ensures judged { IfSome (slice_get table.now.targets target) (λ t. IfOk result (λ leaves. leaves
        ≡ leaves_judged table.now.atoms t (everything table.now.terms) nodes.now)) }
    ensures region { region.new ≡ region.old }
{
    let room = region.room();
    let leaves = walked(alloc, table, target, nodes, region);
    undo_all(region, room);
    leaves
}
