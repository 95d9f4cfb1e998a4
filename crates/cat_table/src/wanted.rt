// The targets whose tables are asked for.
ghost use Rattle.std.specs.Prelude.{◌≡◌, option_map};
ghost use Rattle.std.specs.List.{list_any};
ghost use Rattle.cat_table.specs.Wanted as words;

use cat_guard::{Table, TableTarget};

/// Whether a target has that name.
fn is_named(target: &TableTarget, name: &str) -> bool
    ensures { result ≡ words.is_named name.now target.now }
{
    target.name.as_str() == name
}

/// Whether a target is wanted: it has the name that is asked for, or none is.
pub(crate) fn is_wanted(target: &TableTarget, wanted: Option<&str>) -> bool
    ensures { result ≡ words.is_wanted (option_map (λ name. name.now) wanted.entry) target.now }
{
    match wanted {
        Some(name) => is_named(target, name),
        None => true,
    }
}

/// Whether a table has a target of that name.
pub fn has_target(table: &Table, name: &str) -> bool
    ensures { result ≡ list_any (words.is_named name.now) table.now.targets }
{
    table
        .targets
        .as_slice()
        .iter()
        .any(|target| is_named(target, name))
}
