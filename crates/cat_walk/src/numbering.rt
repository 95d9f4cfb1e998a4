// The classes of the subtrees of a tree.
ghost use Rattle.std.specs.Prelude.{◌≡◌, ℕ, [], ◌∷◌, true, List as Listed, Some, IfOk, OnOk};
ghost use Rattle.cat_guard.specs.declared.tree.TreeNode.{TreeNode as NodeSeen};
ghost use Rattle.cat_guard.specs.Trees.{Tree, is_whole, tree_of};
ghost use Rattle.cat_walk.specs.inside.Classes.{AreClasses, HasRoom};
ghost use Rattle.cat_walk.specs.inside.Numbering.{Arrives, Closes, IsDone, IsNumbered};

use crate::classes::{Classes, LEAF};
use cat_guard::TreeNode;
use cat_pos::Stack;
use std::alloc::{AllocError, Global};

/// A split one of whose sides is still to be met: its atom, and the class of its true side where that was met.
#[derive(Clone, Copy, PartialEq, Eq, Debug)]
pub struct Open {
    pub atom: usize,
    pub left: Option<usize>,
}

/// Meets the splits whose last side was met, of this class. Where no split is open any more, it tells the class of the
/// whole tree.
fn close(
    classes: &mut Classes,
    waiting: &mut Stack<Open>,
    side: usize,
) -> Result<Option<usize>, AllocError>
    requires { HasRoom classes.old.splits.keys classes.old.recurs }
    ensures room { OnOk result (HasRoom classes.new.splits.keys classes.new.recurs) }
    ensures closes { (trees : Listed Tree) (t : Tree)
        → Arrives classes.old.splits.keys classes.old.recurs waiting.old trees side t
        → IfOk result (Closes classes.new.splits.keys classes.new.recurs waiting.new trees t) }
{
    let mut class = side;
    while let Some(split) = waiting.pop() {
        let Some(left) = split.left else {
            waiting.push(Open {
                atom: split.atom,
                left: Some(class),
            })?;
            return Ok(None);
        };
        class = classes.meet(split.atom, left, class)?;
    }
    Ok(Some(class))
}

/// Meets a node. Where the whole tree is met with it, its class is told in the place of `root`.
fn meet_node(
    classes: &mut Classes,
    waiting: &mut Stack<Open>,
    node: TreeNode,
    root: usize,
) -> Result<usize, AllocError>
    requires { HasRoom classes.old.splits.keys classes.old.recurs }
    ensures room { OnOk result (HasRoom classes.new.splits.keys classes.new.recurs) }
    ensures numbered { (ns : Listed NodeSeen) (t : Tree)
        → IsNumbered classes.old.splits.keys classes.old.recurs waiting.old (node ∷ ns) root t
        → IfOk result (λ class. IsNumbered classes.new.splits.keys classes.new.recurs waiting.new ns class t) }
{
    if let TreeNode::Split(atom) = node {
        waiting.push(Open { atom, left: None })?;
        return Ok(root);
    }
    match close(classes, waiting, LEAF)? {
        Some(class) => Ok(class),
        None => Ok(root),
    }
}

/// Meets the subtrees of a tree, and tells its class.
pub(crate) fn number(
    alloc: Global,
    nodes: &[TreeNode],
    classes: &mut Classes,
) -> Result<usize, AllocError>
    requires { HasRoom classes.old.splits.keys classes.old.recurs }
    ensures { (t : Tree) → tree_of nodes.now ≡ Some t → is_whole t ≡ true
        → AreClasses classes.old.splits.keys classes.old.recurs []
        → IfOk result (λ class. IsDone classes.new.splits.keys classes.new.recurs [] class t) }
{
    let mut waiting = Stack::new(alloc);
    let mut root = LEAF;
    for &node in nodes {
        root = meet_node(classes, &mut waiting, node, root)?;
    }
    Ok(root)
}
