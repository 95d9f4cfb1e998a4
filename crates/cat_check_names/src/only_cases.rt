// Cases that are named without their enumerations.
ghost use Rattle.std.specs.Prelude.{◌≡◌, [], OnOk};
ghost use Rattle.cat_check_names.specs.CaseTable.{case_in, IsWithCase};

use cat_pos::Text;
use indexmap::IndexMap;
use std::alloc::{AllocError, Global};
use std::marker::Model;

/// The names of cases, each with the only case that has it, or without one where several have it.
#[derive(Drop)]
pub struct OnlyCases {
    cases: IndexMap<Text, Option<(u32, u32)>>,
}

impl Model for OnlyCases {
    ghost use Rattle.cat_check_names.specs.CaseTable.{CaseTable};

    ghost Value = { CaseTable };

    ghost view = { λ table. table.cases.entries };
}

impl OnlyCases {
    pub fn new(alloc: Global) -> OnlyCases
        ensures { result ≡ [] }
    {
        OnlyCases {
            cases: IndexMap::new(alloc),
        }
    }

    /// Adds a case, by the numbers of its enumeration and its own; where its name is there, none is the only one.
    pub fn add(&mut self, alloc: Global, name: &Text, case: (u32, u32)) -> Result<(), AllocError>
        ensures { OnOk result (IsWithCase name.now case self.old self.new) }
    {
        let only = if self.cases.contains_key(name) {
            None
        } else {
            Some(case)
        };
        self.cases.insert(name.copy()?, only)?;
        Ok(())
    }

    /// The only case of that name.
    pub fn named(&self, name: &Text) -> Option<(u32, u32)>
        ensures { result ≡ case_in self.now name.now }
    {
        match self.cases.get(name) {
            Some(case) => *case,
            None => None,
        }
    }
}
