// The leaves of a search, in preorder.
ghost use Rattle.std.specs.Prelude.{◌≡◌, ◌≤◌, ◌<◌, ◌++◌, ℕ, [], IsTrue, OnOk, IfSome, length, slice_get, take};
ghost use Rattle.std.specs.Prelude.{string_bytes};
ghost use Rattle.cat_region.specs.Regions.{IsInhabited};
ghost use Rattle.cat_guard.specs.Levels.{AreLiveTo};
ghost use Rattle.cat_guard.specs.Trees.{tree_of};
ghost use Rattle.cat_guard.specs.Valuations.{dims_of};
ghost use Rattle.cat_search.specs.Searched.{everything};
ghost use Rattle.cat_search.specs.Ways.{ask_below, led_to, way_from};
ghost use Rattle.cat_table.specs.Leaves.{leaf_of, leaves_among};
ghost use Rattle.cat_table.specs.Rows as rows;
ghost use Rattle.cat_table.specs.inside.Here.{naming_at};
ghost use Rattle.cat_table.specs.inside.Nodes.{node_text, nodes_text};
ghost use Rattle.cat_table.specs.inside.Walking.{AreReached};

use crate::lines::push_row;
use crate::scene::TableScene;
use crate::walking::move_on;
use cat_guard::{CaseTree, Levels, TreeNode, whole_region};
use cat_region::Region;
use cat_search::{Search, Way};
use std::alloc::AllocError;

/// The nodes of the tree that a search made.
pub(crate) fn nodes_in(search: &Search) -> &[TreeNode]
    ensures { result.now ≡ rows.nodes_in search.now }
{
    match search {
        Search::Closed { tree, bad: _ } => tree.nodes.as_slice(),
        Search::Spent { tree, bad: _ } => tree.nodes.as_slice(),
    }
}

fn leaf_of(node: &TreeNode) -> usize
    ensures leaves { result ≡ leaf_of node.now }
    ensures one { result ≤ 1 }
{
    match node {
        TreeNode::Leaf => 1,
        _ => 0,
    }
}

/// The leaves among nodes.
pub fn leaves_among(nodes: &[TreeNode]) -> usize
    ensures { result ≡ leaves_among nodes.now }
{
    let mut leaves = 0usize;
    for node in nodes {
        leaves += leaf_of(node);
    }
    leaves
}

/// The leaves of a tree.
pub(crate) fn leaves_in(tree: &CaseTree) -> usize
    ensures { result ≡ rows.leaves_in (tree_of tree.now.nodes) }
{
    leaves_among(tree.nodes.as_slice())
}

/// Adds the line of a node at the end of a way, where it is a leaf, with the region there and what is live on the way.
fn push_node(
    here: &TableScene,
    text: &mut String,
    target: u32,
    way: &Way,
    node: TreeNode,
    region: &Region,
    levels: &Levels,
) -> Result<(), AllocError>
    requires target { target < length here.now.table.now.targets }
    requires dims { region.now.dims ≡ dims_of here.now.table.now.terms }
    requires narrowings { region.now.narrowings
        ≡ (led_to here.now.table.now.atoms (everything here.now.table.now.terms) way.now).narrowings }
    requires some { IsInhabited region.now }
    requires live { IfSome (slice_get here.now.table.now.targets target)
        (λ t. AreLiveTo here.now.table.now.atoms t region.now levels.now) }
    ensures { IfSome (slice_get here.now.table.now.targets target) (λ t. OnOk result (string_bytes text.new
        ≡ string_bytes text.old ++ node_text (naming_at here.now) here.now.table.now t way.now node)) }
{
    match node {
        TreeNode::Leaf => push_row(here, text, target, way, region, levels),
        TreeNode::Split(_) | TreeNode::Rest => Ok(()),
    }
}

/// Adds the line of each leaf. It costs a step for each node, for each leaf its line, and at each split and each leaf a
/// look at the guards of what may be live there, which is at most about twice what is.
pub(crate) fn push_rows(
    here: &TableScene,
    text: &mut String,
    target: u32,
    nodes: &[TreeNode],
) -> Result<(), AllocError>
    requires target { target < length here.now.table.now.targets }
    requires asked { (n : ℕ) → IsTrue (ask_below (length here.now.table.now.atoms) (way_from [] (take n nodes.now))) }
    requires reached { AreReached here.now.table.now.atoms (everything here.now.table.now.terms) [] nodes.now }
    ensures { IfSome (slice_get here.now.table.now.targets target) (λ t. OnOk result (string_bytes text.new
        ≡ string_bytes text.old ++ nodes_text (naming_at here.now) here.now.table.now t [] nodes.now)) }
{
    let room = nodes.len();
    let mut way = Way::new(here.alloc);
    let mut region = whole_region(here.alloc, here.table, room)?;
    let mut levels = Levels::new(here.alloc, here.table, target)?;
    for &node in nodes {
        push_node(here, text, target, &way, node, &region, &levels)?;
        let more = move_on(here, target, node, room, &mut way, &mut region, &mut levels)?;
        if !more {
            return Ok(());
        }
    }
    Ok(())
}
