// A stack that contracts see as its entries, the top one first.
ghost use Rattle.std.specs.Prelude.{◌≡◌, [], ◌∷◌, length, reverse, slice_get, MatchOption, OnErr, OnOk, IfOk};
ghost use Rattle.std.specs.Option.{option_copied};

use cat_pos::List;
use std::alloc::{AllocError, Global};
use std::marker::Model;

/// A stack on the heap.
#[derive(Drop)]
pub(crate) struct Pile<T> {
    entries: List<T>,
}

impl<T> Model for Pile<T> {
    ghost use Rattle.std.specs.Prelude.{List as Listed, reverse};
    ghost use Rattle.std.specs.Coded.{coded_list};

    ghost Value = { Listed T };

    ghost coded = { coded_list T.code };

    ghost view = { λ it. reverse it.entries };
}

impl<T> Pile<T> {
    pub fn new(alloc: Global) -> Pile<T>
        ensures { result ≡ [] }
    {
        Pile {
            entries: List::new(alloc),
        }
    }

    /// The last entry of the list on top.
    pub fn from_list(entries: List<T>) -> Pile<T>
        ensures { result ≡ reverse entries }
    {
        Pile { entries }
    }

    /// The entries, the top one last.
    pub fn from_below(&self) -> &[T]
        ensures { result.now ≡ reverse self.now }
    {
        self.entries.as_slice()
    }

    pub fn len(&self) -> usize
        ensures { result ≡ length self.now }
    {
        self.entries.len()
    }

    pub fn top(&self) -> Option<&T>
        ensures { option_copied result ≡ slice_get self.now 0 }
    {
        self.entries.as_slice().last()
    }
}

impl<T: Drop> Pile<T> {
    pub fn push(&mut self, entry: T) -> Result<(), AllocError>
        ensures ok { OnOk result (self.new ≡ entry ∷ self.old) }
        ensures err { OnErr result (self.new ≡ self.old) }
    {
        self.entries.push(entry)
    }

    pub fn pop(&mut self) -> Option<T>
        ensures { MatchOption result ((self.old ≡ []) × (self.new ≡ [])) (λ top. self.old ≡ top ∷ self.new) }
    {
        self.entries.pop()
    }
}

impl<T: Copy> Pile<T> {
    pub fn copy(&self, alloc: Global) -> Result<Pile<T>, AllocError>
        ensures { IfOk result (λ pile. pile ≡ self.now) }
    {
        let entries = List::from_slice(alloc, self.entries.as_slice())?;
        Ok(Pile { entries })
    }
}
