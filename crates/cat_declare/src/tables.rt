// Tables of what a tree declares.
ghost use Rattle.std.specs.Prelude.{◌≡◌, ◌<◌, IfOk, length};
ghost use Rattle.cat_declare.specs.inside.Tabling.{AreTables, tree_at};
ghost use Rattle.cat_declare.specs.inside.Writings.{AreDeclarations};

use crate::written::Declarations;
use cat_check_names::{NameTable, TypeTable, table_of};
use cat_pos::ENTRIES_BOUND;
use std::alloc::{AllocError, Global};

/// The names of a tree's types and scopes, with their numbers.
#[derive(Drop)]
pub struct TreeTables<'a> {
    pub declarations: Declarations<'a>,
    pub types: TypeTable,
    pub scopes: NameTable,
}

impl<'a> TreeTables<'a> {
    pub fn of(alloc: Global, declarations: Declarations<'a>) -> Result<TreeTables<'a>, AllocError>
        requires declarations { AreDeclarations declarations }
        requires few { length declarations.tree.now.items < ENTRIES_BOUND }
        ensures tables { IfOk result AreTables }
        ensures tree { IfOk result (λ tables. tree_at tables ≡ declarations.entry.tree.now) }
    {
        let structures = table_of(alloc, declarations.structures.as_slice())?;
        let enumerations = table_of(alloc, declarations.enumerations.as_slice())?;
        let scopes = table_of(alloc, declarations.scopes.as_slice())?;
        let types = TypeTable {
            structures,
            enumerations,
        };
        Ok(TreeTables {
            declarations,
            types,
            scopes,
        })
    }
}
