// The trees of a certificate of version 1, in which nothing is cited.
ghost use Rattle.std.specs.Prelude.{◌≡◌, map, IfOk};
ghost use Rattle.cat_dead.specs.inside.Plain.{plain_node};

use cat_guard::{CitedNode, TreeNode, TreeNodes};
use cat_pos::List;
use std::alloc::{AllocError, Global};

/// A node, where nothing is cited.
fn plain_node(node: CitedNode) -> TreeNode
    ensures { result ≡ plain_node node }
{
    match node {
        CitedNode::Split(atom) => TreeNode::Split(atom),
        CitedNode::Leaf => TreeNode::Leaf,
        CitedNode::Cite(_) => TreeNode::Rest,
    }
}

/// The nodes of a tree in which nothing is cited.
pub(crate) fn plain_nodes(alloc: Global, nodes: &[CitedNode]) -> Result<TreeNodes, AllocError>
    ensures { IfOk result (λ made. made ≡ map plain_node nodes.now) }
{
    let mut made = List::new(alloc);
    for &node in nodes {
        made.push(plain_node(node))?;
    }
    Ok(made)
}
