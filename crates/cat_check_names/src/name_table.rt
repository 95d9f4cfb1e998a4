// Names with their numbers.
ghost use Rattle.std.specs.Prelude.{◌≡◌, [], not, is_some, IfOk, OnOk};
ghost use Rattle.cat_check_names.specs.Table.{number_in, with_name};

use cat_pos::Text;
use indexmap::IndexMap;
use std::alloc::{AllocError, Global};
use std::marker::Model;

/// Names with their numbers, each name once. One is looked up in constant time.
#[derive(Drop)]
pub struct NameTable {
    numbers: IndexMap<Text, u32>,
}

impl Model for NameTable {
    ghost use Rattle.cat_check_names.specs.Table.{Table};

    ghost Value = { Table };

    ghost view = { λ table. table.numbers.entries };
}

impl NameTable {
    pub fn new(alloc: Global) -> NameTable
        ensures { result ≡ [] }
    {
        NameTable {
            numbers: IndexMap::new(alloc),
        }
    }

    /// Adds a name, unless it is there: then it keeps its number, and the answer is false.
    pub fn add(&mut self, alloc: Global, name: &Text, number: u32) -> Result<bool, AllocError>
        ensures added { OnOk result (self.new ≡ with_name self.old name.now number) }
        ensures fresh { IfOk result (λ fresh. fresh ≡ not (is_some (number_in self.old name.now))) }
    {
        if self.numbers.contains_key(name) {
            return Ok(false);
        }
        self.numbers.insert(name.copy()?, number)?;
        Ok(true)
    }

    /// The number of a name, where it is there.
    pub fn number(&self, name: &Text) -> Option<u32>
        ensures { result ≡ number_in self.now name.now }
    {
        match self.numbers.get(name) {
            Some(number) => Some(*number),
            None => None,
        }
    }

    pub fn has(&self, name: &Text) -> bool
        ensures { result ≡ is_some (number_in self.now name.now) }
    {
        self.numbers.contains_key(name)
    }
}
