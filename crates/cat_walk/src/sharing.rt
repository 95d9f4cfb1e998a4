// Trees whose equal parts are written once.
ghost use Rattle.std.specs.Prelude.{◌≡◌, IsTrue, IfOk, IfSome};
ghost use Rattle.cat_guard.specs.Trees.{tree_of};
ghost use Rattle.cat_walk.specs.Sharing.{is_whole_tree, shared};

use crate::classes::Classes;
use crate::numbering::number;
use crate::writing::{bodies, in_place, name_numbers};
use cat_guard::{CaseTree, CitedTree};
use std::alloc::{AllocError, Global};

/// A whole tree with equal parts written once. It costs a look-up for each split, and a step for each node that is
/// written.
pub fn share(alloc: Global, tree: &CaseTree) -> Result<CitedTree, AllocError>
    requires { IsTrue (is_whole_tree (tree_of tree.now.nodes)) }
    ensures { IfOk result (λ cited. IfSome (tree_of tree.now.nodes) (λ t. cited ≡ shared t)) }
{
    let mut classes = Classes::new(alloc);
    let root = number(alloc, tree.nodes.as_slice(), &mut classes)?;
    let numbers = name_numbers(alloc, classes.recurs.as_slice())?;
    let names = bodies(alloc, &classes, numbers.as_slice())?;
    let main = in_place(alloc, &classes, numbers.as_slice(), root)?;
    Ok(CitedTree { names, main })
}
