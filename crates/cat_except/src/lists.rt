// Lists of numbers by key.
ghost use Rattle.std.specs.Prelude.{◌≡◌, length, OnOk};
ghost use Rattle.indexmap.specs.IndexSet.{insert_key};
ghost use Rattle.cat_except.specs.inside.Listing.{with_number};

use cat_pos::{List, Numbers};
use indexmap::IndexSet;
use std::alloc::{AllocError, Global};
use std::hash::Hash;

/// Puts a number to the end of the list of its key, which stands last where it is new.
pub fn list_under<K: Eq + Hash + Drop>(
    alloc: Global,
    keys: &mut IndexSet<K>,
    lists: &mut Vec<Numbers>,
    key: K,
    number: u32,
) -> Result<(), AllocError>
    requires { length lists.old.items ≡ length keys.old.keys }
    ensures keys { OnOk result (keys.new.keys ≡ insert_key K.eq keys.old.keys key) }
    ensures lists { OnOk result (lists.new.items ≡ with_number K.eq key number keys.old.keys lists.old.items) }
{
    let (index, is_new) = keys.insert_full(key)?;
    if is_new {
        lists.push(List::new(alloc))?;
    }
    lists[index].push(number)
}
