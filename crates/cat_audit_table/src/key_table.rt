// Keys with their numbers.
ghost use Rattle.std.specs.Prelude.{◌≡◌, not, [], IfOk, OnOk};
ghost use Rattle.std.specs.List.{list_any, position_or_len};
ghost use Rattle.std.specs.Str.{bytes_eq};
ghost use Rattle.indexmap.specs.IndexSet.{insert_key};

use cat_audit_keys::Key;
use indexmap::IndexSet;
use std::alloc::{AllocError, Global};
use std::marker::Model;

/// Keys, each once, numbered from 0 in the order in which they came. One is found in constant time.
#[derive(Drop)]
pub struct KeyTable {
    keys: IndexSet<Key>,
}

impl Model for KeyTable {
    ghost use Rattle.std.specs.Prelude.{ℕ, List};

    ghost Value = { List (List ℕ) };

    ghost view = { λ table. table.keys.keys };
}

impl KeyTable {
    pub fn new(alloc: Global) -> KeyTable
        ensures { result ≡ [] }
    {
        KeyTable {
            keys: IndexSet::new(alloc),
        }
    }

    /// The number of a key, which is put to the end where it is new; and whether it is.
    pub fn number(&mut self, key: Key) -> Result<(usize, bool), AllocError>
        ensures number { IfOk result (λ r. r.0 ≡ position_or_len (bytes_eq key) self.old) }
        ensures fresh { IfOk result (λ r. r.1 ≡ not (list_any (bytes_eq key) self.old)) }
        ensures keys { OnOk result (self.new ≡ insert_key bytes_eq self.old key) }
    {
        Ok(self.keys.insert_full(key)?)
    }
}
