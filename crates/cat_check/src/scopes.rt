// What a tree says of all scopes.
ghost use Rattle.std.specs.Prelude.{◌≡◌, List, Some, slice_get};
ghost use Rattle.cat_tree.specs.declared.program.Item.{Item};
ghost use Rattle.cat_names.specs.Bodies.{bodies_meant, body_found};
ghost use Rattle.cat_names.specs.Found.{Tells};
ghost use Rattle.cat_names.specs.Lines.{items_about};
ghost use Rattle.cat_check.specs.Unordered.{without_order, without_orders};
ghost use Rattle.cat_check.specs.inside.Tabling.{AreTables};

use crate::body::body_of;
use crate::by_scope::{Items, by_scope};
use crate::tables::DeclarationTables;
use cat_check_forms::Here;
use cat_names::Refusal;
use cat_pos::List;
use cat_scope::{Bodies, Body};
use cat_tree::Tree;
use cat_value::{Decls, Scope, declarations_are_sound};
use std::alloc::Global;
use std::mem::replace;

/// What the items of a tree say of the scope of that number, which is declared so: these are those about it.
fn body_in(
    alloc: Global,
    decls: &Decls,
    tables: &DeclarationTables,
    number: u32,
    scope: &Scope,
    own: Items,
) -> Result<Body, Refusal>
    requires tables { AreTables decls.now tables.now }
    requires declared { slice_get decls.now.scopes number ≡ Some scope.now }
    ensures { (items : List Item) → own ≡ items_about decls.now number items
        → Tells (without_order result) (body_found decls.now items (number, scope.now)) }
{
    let here = Here {
        alloc,
        decls,
        tables: &tables.names,
        inputs: &tables.inputs,
        heights: &tables.heights,
        scope: number,
    };
    let found = body_of(&here, scope, own);
    let Here {
        alloc: _,
        decls: _,
        tables: _,
        inputs: _,
        heights: _,
        scope: _,
    } = here;
    found
}

/// What a tree with these declarations says of each scope, whose items are left without an order. It takes time in
/// proportion to the tree and to what comes out. Each block is dropped as soon as it is read.
pub fn bodies(
    alloc: Global,
    decls: &Decls,
    tables: &DeclarationTables,
    tree: Tree,
) -> Result<Bodies, Refusal>
    requires { AreTables decls.now tables.now }
    ensures told { Tells (without_orders result) (bodies_meant decls.now tree) }
{
    declarations_are_sound(decls);
    let Tree { items } = tree;
    let mut lists = by_scope(alloc, decls, &tables.names, items)?;
    let mut bodies = List::new(alloc);
    for (number, scope) in decls.scopes.as_slice().iter().enumerate() {
        let own = replace(&mut lists[number], List::new(alloc));
        let body = body_in(alloc, decls, tables, number as u32, scope, own)?;
        bodies.push(body)?;
    }
    Ok(bodies)
}
