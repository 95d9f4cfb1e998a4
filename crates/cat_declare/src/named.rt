// Names and counts of a tree, and what it declares where none of them is at fault.
ghost use Rattle.std.specs.Prelude.{◌≡◌, [], IfOk, IfErr, map, flat_map};
ghost use Rattle.cat_names.specs.DeclarationFaults.{declared_name};
ghost use Rattle.cat_names.specs.NameFaults.{name_faults};
ghost use Rattle.cat_declare.specs.Cause.{HasCause};
ghost use Rattle.cat_declare.specs.inside.Naming.{repeated, unresolved};
ghost use Rattle.cat_declare.specs.inside.Parted.{IsMadeOf};
ghost use Rattle.cat_declare.specs.inside.Tabling.{AreTables, tree_at};

use crate::blocks::{Scoped, add_past_definitions, item_tables};
use crate::build::Parts;
use crate::counts::add_declarations;
use crate::reply::clear;
use crate::tables::TreeTables;
use cat_check_names::{Faults, Written, add_repeated};
use cat_names::Refusal;
use cat_pos::List;
use cat_tree::{Item, Name, Tree};
use std::alloc::{AllocError, Global};

/// The name of a declaration.
#[derive(Drop)]
struct Declared<'a> {
    name: &'a Name,
}

impl<'a> Written for Declared<'a> {
    ghost written = { λ declared. declared.name.now };

    fn written(&self) -> &Name {
        self.name
    }
}

/// The names that a tree declares, in source order.
fn declared_names<'a>(alloc: Global, items: &'a [Item]) -> Result<List<Declared<'a>>, AllocError>
    ensures { IfOk result (λ names. map (λ d. d.name.now) names ≡ flat_map declared_name items.now) }
{
    let mut names = List::new(alloc);
    for item in items {
        let (Item::Structure(_, name, _)
        | Item::Enumeration(_, name, _)
        | Item::Scope(_, name, _)) = item
        else {
            continue;
        };
        names.push(Declared { name })?;
    }
    Ok(names)
}

/// Refuses where names of declarations, or names in them, stand twice, or where a count in them is passed.
pub fn refuse_repeated(alloc: Global, tree: &Tree) -> Result<(), Refusal>
    ensures none { IfOk result (λ _. repeated tree.now.items ≡ []) }
    ensures cause { IfErr result (HasCause tree.now) }
{
    let items = tree.items.as_slice();
    let names = declared_names(alloc, items)?;
    let mut faults = List::new(alloc);
    add_repeated(alloc, names.as_slice(), &mut faults)?;
    add_declarations(alloc, items, &mut faults)?;
    clear(&faults)
}

/// What a tree declares, with the names in it that name nothing and the first definition past the most.
fn looked_up(alloc: Global, tables: &TreeTables) -> Result<(Parts, Faults), AllocError>
    requires tables { AreTables tables.now }
    requires apart { repeated (tree_at tables.now).items ≡ [] }
    ensures made { IfOk result (λ found. IsMadeOf (tree_at tables.now) found.0) }
    ensures faults { IfOk result (λ found. found.1 ≡ unresolved (tree_at tables.now).items) }
{
    let tree = tables.declarations.tree;
    let items = tree.items.as_slice();
    let mut faults = List::new(alloc);
    let parts = Parts::of(alloc, tables, &mut faults)?;
    let variables = item_tables(alloc, &tables.declarations.scopes)?;
    let scoped = Scoped {
        alloc,
        tables,
        items: variables,
    };
    scoped.add_blocks(items, &mut faults)?;
    add_past_definitions(alloc, items, &mut faults)?;
    Ok((parts, faults))
}

/// What a tree declares, where no name or count is at fault.
pub fn resolved(alloc: Global, tables: &TreeTables) -> Result<Parts, Refusal>
    requires tables { AreTables tables.now }
    requires apart { repeated (tree_at tables.now).items ≡ [] }
    ensures made { IfOk result (IsMadeOf (tree_at tables.now)) }
    ensures none { IfOk result (λ _. name_faults (tree_at tables.now) ≡ []) }
    ensures cause { IfErr result (HasCause (tree_at tables.now)) }
{
    let (parts, faults) = looked_up(alloc, tables)?;
    clear(&faults)?;
    Ok(parts)
}
