// The tables of declarations.

use crate::{NameTable, OnlyCases, Outputs, TypeTable};
use cat_pos::List;

/// What the names of declarations name.
#[derive(Drop)]
pub struct NameTables {
    pub types: TypeTable,
    pub scopes: NameTable,
    /// One for each structure.
    pub fields: List<NameTable>,
    /// One for each enumeration.
    pub cases: List<NameTable>,
    pub only_cases: OnlyCases,
    /// One for each scope.
    pub items: List<NameTable>,
    /// One for each scope.
    pub outputs: List<Outputs>,
}
