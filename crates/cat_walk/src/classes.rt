// Numbers of subtrees: equal ones have one number.
ghost use Rattle.std.specs.Prelude.{◌≡◌, ◌<◌, [], ◌++◌, ◌∷◌, ℕ, length, slice_get, List as Listed, Some, IfOk, OnOk};
ghost use Rattle.cat_guard.specs.Trees.{Tree};
ghost use Rattle.cat_guard.specs.Trees as tree;
ghost use Rattle.cat_walk.specs.Sharing.{with_all};
ghost use Rattle.cat_walk.specs.inside.Classes.{class_in, AreClasses, HasRoom, Meets};

use cat_pos::List;
use indexmap::IndexSet;
use std::alloc::{AllocError, Global};

/// The class of a leaf. The others are numbered from 1 on, in the order in which they are first met.
pub(crate) const LEAF: usize = 0;

/// The classes of equal subtrees that were met.
#[derive(Drop)]
pub(crate) struct Classes {
    /// For each class the atom of its split, and the classes of the sides.
    pub(crate) splits: IndexSet<(usize, usize, usize)>,
    /// Whether it was met more than once.
    pub(crate) recurs: List<bool>,
}

impl Classes {
    pub(crate) fn new(alloc: Global) -> Classes
        ensures room { HasRoom result.splits.keys result.recurs }
        ensures none { AreClasses result.splits.keys result.recurs [] }
    {
        Classes {
            splits: IndexSet::new(alloc),
            recurs: List::new(alloc),
        }
    }

    /// Meets a split over two classes.
    pub(crate) fn meet(
        &mut self,
        atom: usize,
        left: usize,
        right: usize,
    ) -> Result<usize, AllocError>
        requires { HasRoom self.old.splits.keys self.old.recurs }
        ensures room { OnOk result (HasRoom self.new.splits.keys self.new.recurs) }
        ensures meets { (met : Listed Tree) (l : Tree) (r : Tree) → AreClasses self.old.splits.keys self.old.recurs met
            → class_in (with_all [] met) l ≡ Some left → class_in (with_all [] met) r ≡ Some right
            → IfOk result (Meets self.new.splits.keys self.new.recurs met (tree.Split atom l r)) }
    {
        let (index, new) = self.splits.insert_full((atom, left, right))?;
        if new {
            self.recurs.push(false)?;
            return Ok(self.recurs.len());
        }
        self.recurs.set(index, true);
        // The class fits, since the number of flags does.
        let _flags = self.recurs.len();
        Ok(index + 1)
    }

    /// The split of the class one above that index: its atom, and the classes of its sides.
    pub(crate) fn split(&self, index: usize) -> (usize, usize, usize)
        requires { index < length self.now.splits.keys }
        ensures { slice_get self.now.splits.keys index ≡ Some result }
    {
        *self.splits.get_index(index).unwrap()
    }
}
