// The declaration and the blocks of each scope.
ghost use Rattle.std.specs.Prelude.{◌≡◌, IfOk, OnOk, length};
ghost use Rattle.cat_check_names.specs.Tables.{AreTablesOf};
ghost use Rattle.cat_check.specs.inside.ByScope.{AreByScope, scope_about, with_item};

use cat_check_names::NameTables;
use cat_pos::{List, empty_lists};
use cat_tree::Item;
use cat_value::Decls;
use std::alloc::{AllocError, Global};

/// Declarations and blocks of a tree.
pub type Items = List<Item>;

/// The scope that an item declares, or that it is a block of.
fn scope_about(decls: &Decls, names: &NameTables, item: &Item) -> Option<u32>
    requires { AreTablesOf decls.now names.now }
    ensures { result ≡ scope_about decls.now item.now }
{
    match item {
        Item::Scope(_, name, _) => names.scope_named(decls, &name.text),
        Item::Block(block) => names.scope_named(decls, &block.name.text),
        Item::Structure(_, _, _) | Item::Enumeration(_, _, _) => None,
    }
}

/// Adds an item to the list of the scope that it is about.
fn add_item(
    decls: &Decls,
    names: &NameTables,
    item: Item,
    lists: &mut Vec<Items>,
) -> Result<(), AllocError>
    requires tabled { AreTablesOf decls.now names.now }
    requires counted { length lists.old.items ≡ length decls.now.scopes }
    ensures { OnOk result (lists.new.items ≡ with_item (scope_about decls.now item) item lists.old.items) }
{
    match scope_about(decls, names, &item) {
        None => Ok(()),
        Some(scope) => lists[scope as usize].push(item),
    }
}

/// For each scope its declaration and its blocks among the items of a tree, in one pass over them.
pub fn by_scope(
    alloc: Global,
    decls: &Decls,
    names: &NameTables,
    items: Items,
) -> Result<Vec<Items>, AllocError>
    requires { AreTablesOf decls.now names.now }
    ensures { IfOk result (λ lists. AreByScope decls.now items lists.items) }
{
    let mut lists = empty_lists(alloc, decls.scopes.len())?;
    for item in items.into_vec() {
        add_item(decls, names, item, &mut lists)?;
    }
    Ok(lists)
}
