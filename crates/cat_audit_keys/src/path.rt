// The keys of paths.
ghost use Rattle.std.specs.Prelude.{◌≡◌, ◌∷◌, ◌++◌, IfOk, OnOk};

use crate::form::Spelling;
use crate::key::Key;
use cat_guard::InputPath;
use cat_pos::List;
use std::alloc::{AllocError, Global};

/// Adds the numbers of fields.
fn add_fields(fields: &[u32], numbers: &mut Spelling) -> Result<(), AllocError>
    ensures { OnOk result (numbers.new ≡ numbers.old ++ fields.now) }
{
    for &field in fields {
        numbers.push(field as u64)?;
    }
    Ok(())
}

/// The key of a part of an input: its item, and the fields that lead to it.
pub fn path_key(alloc: Global, path: &InputPath) -> Result<Key, AllocError>
    ensures { IfOk result (λ key. key ≡ path.now.item ∷ path.now.fields) }
{
    let mut numbers = List::new(alloc);
    numbers.push(path.item as u64)?;
    add_fields(path.fields.as_slice(), &mut numbers)?;
    Ok(Key::new(numbers))
}
