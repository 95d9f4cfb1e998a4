// Tables of what a tree declares.
ghost use Rattle.std.specs.Prelude.{IfOk};
ghost use Rattle.cat_check.specs.inside.Tabling.{AreTables};

use crate::required::required_inputs;
use cat_check_names::NameTables;
use cat_pos::{List, Numbers};
use cat_value::{Decls, TypeHeights};
use std::alloc::{AllocError, Global};

/// What is looked up of declarations wherever an expression stands.
#[derive(Drop)]
pub struct DeclarationTables {
    pub names: NameTables,
    /// The inputs of each scope that a call must give.
    pub inputs: List<Numbers>,
    pub heights: TypeHeights,
}

impl DeclarationTables {
    /// The tables of some declarations. It takes time in proportion to them.
    pub fn of(alloc: Global, decls: &Decls) -> Result<DeclarationTables, AllocError>
        ensures { IfOk result (AreTables decls.now) }
    {
        Ok(DeclarationTables {
            names: NameTables::of(alloc, decls)?,
            inputs: required_inputs(alloc, decls)?,
            heights: TypeHeights::of(alloc, &decls.structures, &decls.enumerations)?,
        })
    }
}
