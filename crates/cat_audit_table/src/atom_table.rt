// The atoms that questions are.
ghost use Rattle.std.specs.Prelude.{◌≡◌, [], IfOk};
ghost use Rattle.cat_guard.specs.Questions.{Question};
ghost use Rattle.cat_audit_table.specs.Numbered.{AreAtomsOf, AddsAtom};

use crate::key_table::KeyTable;
use cat_audit_keys::atom_key;
use cat_guard::{Atom, Atoms};
use cat_pos::List;
use cat_region::Cut;
use std::alloc::{AllocError, Global};

/// The atoms that the questions so far are, by first appearance, with their keys.
#[derive(Drop)]
pub struct AtomTable {
    pub atoms: Atoms,
    pub keys: KeyTable,
}

impl AtomTable {
    pub fn new(alloc: Global) -> AtomTable
        ensures { AreAtomsOf [] result }
    {
        AtomTable {
            atoms: List::new(alloc),
            keys: KeyTable::new(alloc),
        }
    }

    /// The number of the atom that a cut of the term of that number is.
    pub fn number(&mut self, alloc: Global, term: usize, cut: Cut) -> Result<usize, AllocError>
        ensures { IfOk result (λ number. (q : Question) → q.cut ≡ cut → AddsAtom q term self.old self.new number) }
    {
        let key = atom_key(alloc, term, &cut)?;
        let (number, fresh) = self.keys.number(key)?;
        if !fresh {
            return Ok(number);
        }
        self.atoms.push(Atom { term, cut })?;
        Ok(number)
    }
}
