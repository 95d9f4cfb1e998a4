// How large trees with citations are.
ghost use Rattle.std.specs.Prelude.{◌≡◌, ℕ, List as Listed, Some, map, IsTrue, IfOk, IfSome};
ghost use Rattle.cat_guard.specs.Trees.{Tree, expanded, cited_tree_of};
ghost use Rattle.cat_walk.specs.Sizes.{size_of, is_there};
ghost use Rattle.cat_walk.specs.inside.Sizing.{split_size, Sizable, Sizes, HasSizes};

use cat_guard::{CitedNode, CitedTree};
use cat_pos::{List, Stack};
use std::alloc::{AllocError, Global};

/// One more than the most leaves that a tree may have.
pub const PAST_MOST: u32 = 16_777_217;

/// The number of leaves of a tree, and the greatest number of splits above one of them. `PAST_MOST` stands for any
/// greater number.
#[derive(Clone, Copy, PartialEq, Eq, Debug)]
pub struct TreeSize {
    pub leaves: u32,
    pub height: u32,
}

/// A split over two trees.
fn split_size(left: TreeSize, right: TreeSize) -> TreeSize
    ensures { result ≡ split_size left right }
{
    TreeSize {
        leaves: left.leaves.saturating_add(right.leaves).min(PAST_MOST),
        height: left
            .height
            .max(right.height)
            .saturating_add(1)
            .min(PAST_MOST),
    }
}

/// The tree that a node begins, in front of trees of these sizes. A split takes its sides off.
fn node_size(named: &[TreeSize], node: CitedNode, behind: &mut Stack<TreeSize>) -> TreeSize
    requires { Sizable named.now node behind.old }
    ensures { Sizes named.now node behind.old result behind.new }
{
    match node {
        CitedNode::Leaf => TreeSize {
            leaves: 1,
            height: 0,
        },
        CitedNode::Cite(name) => named[name],
        CitedNode::Split(_) => {
            let left = behind.pop().unwrap();
            let right = behind.pop().unwrap();
            split_size(left, right)
        }
    }
}

/// The tree of a list, where the named trees have these sizes. It goes through the nodes from the last one on.
fn list_size(alloc: Global, named: &[TreeSize], nodes: &[CitedNode]) -> Result<TreeSize, AllocError>
    requires { HasSizes named.now nodes.now }
    ensures { (names : Listed Tree) (t : Tree) → named.now ≡ map size_of names
        → cited_tree_of names nodes.now ≡ Some t → IfOk result (λ size. size ≡ size_of t) }
{
    let mut sizes = Stack::new(alloc);
    for at in (0..nodes.len()).rev() {
        let size = node_size(named, nodes[at], &mut sizes);
        sizes.push(size)?;
    }
    Ok(sizes.pop().unwrap())
}

/// How large the tree is that a tree with citations stands for. It costs a step for each node that is written.
pub fn tree_size(alloc: Global, tree: &CitedTree) -> Result<TreeSize, AllocError>
    requires { IsTrue (is_there (expanded tree.now)) }
    ensures { IfOk result (λ size. IfSome (expanded tree.now) (λ t. size ≡ size_of t)) }
{
    let mut sizes = List::new(alloc);
    for nodes in tree.names.as_slice() {
        let size = list_size(alloc, sizes.as_slice(), nodes.as_slice())?;
        sizes.push(size)?;
    }
    list_size(alloc, sizes.as_slice(), tree.main.as_slice())
}
