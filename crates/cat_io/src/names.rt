// Lists of the names that a shelf refused.
ghost use Rattle.std.specs.Prelude.{◌≡◌, ◌∷◌, ◌++◌, [], OnOk, OnErr};
ghost use Rattle.cat_io.specs.Stored.{texts_of};

use std::alloc::{AllocError, Global};

/// Puts a name at the end of a list.
pub(crate) fn list(alloc: Global, names: &mut Vec<String>, name: &str) -> Result<(), AllocError>
    ensures ok { OnOk result (texts_of names.new.items ≡ texts_of names.old.items ++ name.now ∷ []) }
    ensures err { OnErr result (texts_of names.new.items ≡ texts_of names.old.items) }
{
    names.push(String::from_str(alloc, name)?)?;
    Ok(())
}
