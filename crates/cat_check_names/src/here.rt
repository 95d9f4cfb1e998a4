// Where an expression stands.

use crate::{NameTable, TypeTable};
use cat_pos::List;
use cat_tree::{Tree, Variable};
use std::alloc::Global;

/// What may be named where an expression stands: the types and scopes of a tree, and the variables of the scope at
/// hand, with tables of all of these.
pub struct NamingContext<'a> {
    pub alloc: Global,
    pub tree: &'a Tree,
    pub variables: &'a List<Variable>,
    pub types: &'a TypeTable,
    pub scopes: &'a NameTable,
    pub items: &'a NameTable,
}
