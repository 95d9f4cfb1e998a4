// How high trees are.
ghost use Rattle.std.specs.Prelude.{◌≡◌, max, IsTrue, IfOk};
ghost use Rattle.cat_scope.specs.Names.{AllHave};
ghost use Rattle.cat_guard.specs.Trees.{expanded};
ghost use Rattle.cat_walk.specs.Sizes.{is_small};
ghost use Rattle.cat_cert.specs.Heights.{IsUpTo};

use crate::CertTree;
use cat_walk::{cited_trees_are_whole, tree_size};
use std::alloc::{AllocError, Global};

/// How high a tree is.
fn height(alloc: Global, tree: &CertTree) -> Result<usize, AllocError>
    requires { IsTrue (is_small (expanded tree.now.tree)) }
    ensures { IfOk result (λ most. IsUpTo most tree.now) }
{
    cited_trees_are_whole();
    let size = tree_size(alloc, &tree.tree)?;
    Ok(size.height as usize)
}

/// The greater of two numbers.
fn greater(one: usize, other: usize) -> usize
    ensures { result ≡ max one other }
{
    one.max(other)
}

/// How high the highest of some trees is.
pub fn highest(alloc: Global, trees: &[CertTree]) -> Result<usize, AllocError>
    requires { AllHave (λ c. IsTrue (is_small (expanded c.tree))) trees.now }
    ensures { IfOk result (λ most. AllHave (IsUpTo most) trees.now) }
{
    let mut most = 0;
    for tree in trees {
        let next = height(alloc, tree)?;
        most = greater(most, next);
    }
    Ok(most)
}
