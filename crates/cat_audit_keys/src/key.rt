// Keys, by which tables find terms and atoms.
ghost use Rattle.std.specs.Prelude.{◌≡◌};
ghost use Rattle.std.specs.Cmp as Cmp;
ghost use Rattle.std.specs.Cmp.Lexicographic.{nat_list_eq_equiv};
ghost use Rattle.std.specs.Hash as fed;
ghost use Rattle.std.specs.Str.{bytes_eq};

use crate::form::Spelling;
use std::hash::{Hash, Hasher};
use std::marker::Model;

/// The numbers by which a table finds a term or an atom.
#[derive(Debug, Drop)]
pub struct Key {
    numbers: Spelling,
}

impl Model for Key {
    ghost use Rattle.std.specs.Prelude.{ℕ, List};

    ghost Value = { List ℕ };

    ghost view = { λ key. key.numbers };
}

impl Key {
    pub(crate) fn new(numbers: Spelling) -> Key
        ensures { result ≡ numbers }
    {
        Key { numbers }
    }
}

impl PartialEq for Key {
    ghost eq = { bytes_eq };

    ghost laws = { Cmp.partial_equiv_from_equiv nat_list_eq_equiv };

    fn eq(&self, other: &Key) -> bool {
        self.numbers.as_slice() == other.numbers.as_slice()
    }
}

impl Eq for Key {
    ghost laws = { nat_list_eq_equiv };
}

impl Hash for Key {
    ghost use Rattle.std.proofs.lemmas.Slice.Eq.{bytes_eq-Decides};

    ghost hash_input = { fed.slice fed.u64 };

    ghost respects_eq = { (fed.same_Alike (fed.slice fed.u64) bytes_eq-Decides).fed };

    fn hash<H: Hasher>(&self, state: &mut H) {
        self.numbers.as_slice().hash(state);
    }
}
