// The operand stack.
ghost use Rattle.std.specs.Prelude.{◌≡◌, ◌≤◌, ◌∷◌, [], length, drop, reverse, take, MatchOption, OnErr, OnOk};

use cat_pool::Ref;
use std::alloc::{AllocError, Global};
use std::marker::Model;

/// References of which the last is on top. Contracts see it first.
#[derive(Drop)]
pub struct Operands {
    refs: Vec<Ref>,
}

impl Model for Operands {
    ghost use Rattle.std.specs.Prelude.{ℕ, List, reverse};

    ghost Value = { List ℕ };

    ghost view = { λ it. reverse it.refs.items };
}

impl Operands {
    pub fn new(alloc: Global) -> Operands
        ensures { result ≡ [] }
    {
        Operands {
            refs: Vec::new(alloc),
        }
    }

    pub fn push(&mut self, r: Ref) -> Result<(), AllocError>
        ensures ok { OnOk result (self.new ≡ r ∷ self.old) }
        ensures err { OnErr result (self.new ≡ self.old) }
    {
        self.refs.push(r)?;
        Ok(())
    }

    pub fn pop(&mut self) -> Option<Ref>
        ensures { MatchOption result ((self.old ≡ []) × (self.new ≡ [])) (λ top. self.old ≡ top ∷ self.new) }
    {
        self.refs.pop()
    }

    /// The n on top, in the order in which they were pushed.
    pub fn last(&self, n: u32) -> &[Ref]
        requires { n ≤ length self.now }
        ensures { result.now ≡ reverse (take n self.now) }
    {
        let start = self.refs.len() - n as usize;
        &self.refs[start..]
    }

    /// The n on top are gone.
    pub fn forget(&mut self, n: u32)
        requires { n ≤ length self.old }
        ensures { self.new ≡ drop n self.old }
    {
        let left = self.refs.len() - n as usize;
        self.refs.truncate(left);
    }

    /// None is left. The room that they took stays.
    pub fn clear(&mut self)
        ensures { self.new ≡ [] }
    {
        self.refs.clear();
    }
}
