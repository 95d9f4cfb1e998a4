// Trees with citations written out.
ghost use Rattle.std.specs.Prelude.{◌≡◌, [], ◌∷◌, IsTrue, IfOk};
ghost use Rattle.cat_guard.specs.Trees.{tree_of, expanded};
ghost use Rattle.cat_walk.specs.LeafPlaces.{lists_of};
ghost use Rattle.cat_walk.specs.Sizes.{is_small};
ghost use Rattle.cat_walk.specs.inside.Meetings.{are_earlier, start_of, to_come};
ghost use Rattle.cat_walk.specs.inside.Nodes.{nodes_met};

use crate::meeting::{Met, enter, next, start};
use crate::size::tree_size;
use cat_guard::{CaseTree, CitedTree, TreeNode, TreeNodes};
use cat_pos::List;
use std::alloc::{AllocError, Global};

/// The nodes of a tree, each citation replaced by those of the named tree.
fn nodes_of(alloc: Global, tree: &CitedTree) -> Result<TreeNodes, AllocError>
    requires { IsTrue (are_earlier 0 (lists_of tree.now)) }
    ensures { IfOk result (λ nodes. nodes ≡ nodes_met (to_come (lists_of tree.now) (start_of tree.now ∷ []))) }
{
    let mut places = start(alloc, tree)?;
    let mut nodes = List::new(alloc);
    while let Some(met) = next(tree, &mut places)? {
        match met {
            Met::Split(atom) => nodes.push(TreeNode::Split(atom))?,
            Met::Leaf(_) => nodes.push(TreeNode::Leaf)?,
            Met::Cite(name) => enter(tree, &mut places, name)?,
            Met::End => {}
        }
    }
    Ok(nodes)
}

/// The tree that a tree with citations stands for, written out.
pub fn expand(alloc: Global, tree: &CitedTree) -> Result<CaseTree, AllocError>
    requires { IsTrue (is_small (expanded tree.now)) }
    ensures { IfOk result (λ made. tree_of made.nodes ≡ expanded tree.now) }
{
    let size = tree_size(alloc, tree)?;
    let nodes = nodes_of(alloc, tree)?;
    Ok(CaseTree::from_parts(nodes, size.height as usize))
}
