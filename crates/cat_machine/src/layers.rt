// Lists that lie one on the other in one vector: only the last one grows, and it is the first that goes.
ghost use Rattle.std.specs.Prelude.{◌≡◌, ◌≢◌, ◌≤◌, ◌++◌, ◌∷◌, [], length, OnOk, OnErr};
ghost use Rattle.cat_machine.specs.Layers.{extended, joined, rest_of, shortened, top_head, top_items, with_head};
ghost use Rattle.cat_machine.specs.Layers.{with_item};
ghost use Rattle.cat_machine.specs.inside.Layered.{start_of};

use cat_pos::Stack;
use std::alloc::{AllocError, Global};
use std::marker::Model;

/// Where a list begins, with its head.
#[derive(Clone, Copy)]
pub struct LayerStart<H> {
    pub head: H,
    pub start: usize,
}

/// Lists, each with a head. Contracts see the one that was opened last first.
#[derive(Drop)]
pub struct Layers<H, T> {
    starts: Stack<LayerStart<H>>,
    items: Vec<T>,
}

impl<H, T> Model for Layers<H, T> {
    ghost use Rattle.std.specs.Prelude.{List, length};
    ghost use Rattle.std.specs.Coded.{coded_list, coded×};
    ghost use Rattle.cat_machine.specs.inside.Layered.{AreNested, layers_of};

    ghost Value = { List (H × List T) };

    ghost coded = { coded_list (coded× H.code (coded_list T.code)) };

    ghost view = { λ it. layers_of it.starts it.items.items };

    ghost invariant = { λ it. AreNested it.starts (length it.items.items) };
}

/// Where the list on top begins in so many items.
fn start_of<H: Copy>(starts: &Stack<LayerStart<H>>, items: usize) -> usize
    ensures { result ≡ start_of starts.now items }
{
    match starts.top() {
        Some(top) => top.start,
        None => items,
    }
}

impl<H: Copy, T: Copy> Layers<H, T> {
    pub fn new(alloc: Global) -> Layers<H, T>
        ensures { result ≡ [] }
    {
        Layers {
            starts: Stack::new(alloc),
            items: Vec::new(alloc),
        }
    }

    /// An empty list on top.
    pub fn open(&mut self, head: H) -> Result<(), AllocError>
        ensures ok { OnOk result (self.new ≡ (head, []) ∷ self.old) }
        ensures err { OnErr result (self.new ≡ self.old) }
    {
        let start = self.items.len();
        self.starts.push(LayerStart { head, start })?;
        Ok(())
    }

    pub fn head(&self) -> Option<H>
        ensures { result ≡ top_head self.now }
    {
        match self.starts.top() {
            Some(top) => Some(top.head),
            None => None,
        }
    }

    /// Another head of the list on top.
    pub fn set_head(&mut self, head: H) -> Result<(), AllocError>
        ensures { OnOk result (self.new ≡ with_head head self.old) }
    {
        let Some(top) = self.starts.pop() else {
            return Ok(());
        };
        let start = top.start;
        if self.starts.push(LayerStart { head, start }).is_err() {
            self.items.truncate(start);
            return Err(AllocError);
        }
        Ok(())
    }

    /// The items of the list on top.
    pub fn items(&self) -> &[T]
        ensures { result.now ≡ top_items self.now }
    {
        let start = start_of(&self.starts, self.items.len());
        &self.items[start..]
    }

    pub fn push(&mut self, item: T) -> Result<(), AllocError>
        requires { self.old ≢ [] }
        ensures ok { OnOk result (self.new ≡ extended (item ∷ []) self.old) }
        ensures err { OnErr result (self.new ≡ self.old) }
    {
        self.items.push(item)?;
        Ok(())
    }

    pub fn extend(&mut self, items: &[T]) -> Result<(), AllocError>
        requires { self.old ≢ [] }
        ensures ok { OnOk result (self.new ≡ extended items.now self.old) }
        ensures err { OnErr result (self.new ≡ self.old) }
    {
        self.items.extend_from_slice(items)?;
        Ok(())
    }

    /// Another item in the place of one of the list on top; none where there is none.
    pub fn set(&mut self, i: usize, item: T)
        ensures { self.new ≡ with_item i item self.old }
    {
        let start = start_of(&self.starts, self.items.len());
        if i >= self.items.len() - start {
            return;
        }
        self.items[start + i] = item;
    }

    /// So many items less in the list on top.
    pub fn shorten(&mut self, n: usize)
        ensures { self.new ≡ shortened n self.old }
    {
        let start = start_of(&self.starts, self.items.len());
        let here = self.items.len() - start;
        self.items.truncate(start + here.saturating_sub(n));
    }

    /// The list on top is gone.
    pub fn close(&mut self)
        ensures { self.new ≡ rest_of self.old }
    {
        let start = start_of(&self.starts, self.items.len());
        self.items.truncate(start);
        self.starts.pop();
    }

    /// No list is left. The room that they took stays.
    pub fn clear(&mut self)
        ensures { self.new ≡ [] }
    {
        self.starts.clear();
        self.items.clear();
    }

    /// The items of the list on top are the last of the one below.
    pub fn join(&mut self)
        requires { 2 ≤ length self.old }
        ensures { self.new ≡ joined self.old }
    {
        self.starts.pop();
    }
}
