// Where an expression stands.

use cat_check_names::NameTables;
use cat_pos::{List, Numbers};
use cat_value::{Decls, TypeHeights};
use std::alloc::Global;

/// What may be named where an expression stands: the declarations of a program, with tables of them, and the scope at
/// hand.
pub struct Here<'a> {
    pub alloc: Global,
    pub decls: &'a Decls,
    pub tables: &'a NameTables,
    /// The inputs of each scope that a call must give.
    pub inputs: &'a List<Numbers>,
    pub heights: &'a TypeHeights,
    pub scope: u32,
}
