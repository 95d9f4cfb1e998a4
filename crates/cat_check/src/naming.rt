// Which words name a scope.
ghost use Rattle.std.specs.Prelude.{◌≡◌};
ghost use Rattle.cat_check.specs.inside.Calling.{is_for};

use cat_check_names::NameTable;
use cat_tree::Name;

/// Whether a name is one of that number.
pub fn is_for(table: &NameTable, number: u32, name: &Name) -> bool
    ensures { result ≡ is_for table.now number name.now }
{
    match table.number(&name.text) {
        Some(found) => found == number,
        None => false,
    }
}
