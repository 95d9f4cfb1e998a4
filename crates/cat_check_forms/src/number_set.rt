// Numbers that are looked up.
ghost use Rattle.std.specs.Prelude.{◌≡◌, ◌||◌, [], IfOk, OnOk, ℕ, not, nat_eq};
ghost use Rattle.std.specs.List.{list_all};
ghost use Rattle.cat_scope.specs.Names.{all_differ, are_all_in, is_in};

use cat_pos::Numbers;
use indexmap::IndexSet;
use std::alloc::{AllocError, Global};
use std::marker::Model;

/// Numbers, each once. One is looked up in constant time.
#[derive(Drop)]
pub struct NumberSet {
    numbers: IndexSet<u32>,
}

impl Model for NumberSet {
    ghost use Rattle.std.specs.Prelude.{ℕ, List};

    ghost Value = { List ℕ };

    ghost view = { λ set. set.numbers.keys };
}

impl NumberSet {
    pub fn new(alloc: Global) -> NumberSet
        ensures { result ≡ [] }
    {
        NumberSet {
            numbers: IndexSet::new(alloc),
        }
    }

    /// Adds a number. The answer is false where it is there.
    pub fn add(&mut self, number: u32) -> Result<bool, AllocError>
        ensures fresh { IfOk result (λ fresh. fresh ≡ not (is_in number self.old)) }
        ensures added { OnOk result ((k : ℕ) → is_in k self.new ≡ (nat_eq k number || is_in k self.old)) }
    {
        Ok(self.numbers.insert(number)?)
    }

    pub fn has(&self, number: u32) -> bool
        ensures { result ≡ is_in number self.now }
    {
        self.numbers.contains(&number)
    }

    /// Whether each number below a bound is there.
    pub fn has_all(&self, count: u32) -> bool
        ensures { result ≡ are_all_in count self.now }
    {
        for number in 0..count {
            if !self.has(number) {
                return false;
            }
        }
        true
    }

    /// Whether each of some numbers is there.
    pub fn has_each(&self, numbers: &Numbers) -> bool
        ensures { result ≡ list_all (λ k. is_in k self.now) numbers.now }
    {
        for number in numbers.as_slice() {
            if !self.has(*number) {
                return false;
            }
        }
        true
    }
}

/// The set of some numbers, and whether all of them differ.
pub fn set_of(alloc: Global, numbers: &[u32]) -> Result<(NumberSet, bool), AllocError>
    ensures same { IfOk result (λ r. (k : ℕ) → is_in k r.0 ≡ is_in k numbers.now) }
    ensures differ { IfOk result (λ r. r.1 ≡ all_differ numbers.now) }
{
    let mut set = NumberSet::new(alloc);
    let mut differ = true;
    for number in numbers {
        if set.add(*number)? {
            continue;
        }
        differ = false;
    }
    Ok((set, differ))
}
