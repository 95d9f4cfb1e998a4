// What a tree says of its scopes, by tables of what it declares.
ghost use Rattle.std.specs.Prelude.{IfOk, IfErr};
ghost use Rattle.cat_names.specs.Accepted.{IsMeant, IsNamed, IsRefused, parts_of};
ghost use Rattle.cat_check.specs.Cause.{Because};
ghost use Rattle.cat_check.specs.inside.Tabling.{AreTables};

use crate::scopes::bodies;
use crate::tables::DeclarationTables;
use cat_names::Refusal;
use cat_scope::Bodies;
use cat_tree::Tree;
use cat_value::Decls;
use std::alloc::Global;

/// What a tree says of each scope that it declares, by tables of its declarations.
fn meaning_by(
    alloc: Global,
    tree: Tree,
    decls: &Decls,
    tables: &DeclarationTables,
) -> Result<Bodies, Refusal>
    requires named { IsNamed tree (parts_of decls.now) }
    requires tables { AreTables decls.now tables.now }
    ensures meant { IfOk result (IsMeant tree decls.now) }
    ensures cause { IfErr result (Because (IsRefused tree)) }
{
    bodies(alloc, decls, tables, tree)
}

/// What a tree says of each scope that it declares. Its blocks are dropped one after another.
pub fn meaning_of(alloc: Global, tree: Tree, decls: &Decls) -> Result<Bodies, Refusal>
    requires { IsNamed tree (parts_of decls.now) }
    ensures meant { IfOk result (IsMeant tree decls.now) }
    ensures cause { IfErr result (Because (IsRefused tree)) }
{
    let tables = DeclarationTables::of(alloc, decls)?;
    meaning_by(alloc, tree, decls, &tables)
}
