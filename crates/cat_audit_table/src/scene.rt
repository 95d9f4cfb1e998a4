// The scope whose table is made.
use cat_scope::Def;
use cat_value::{Decls, ItemDecl};
use std::alloc::Global;

/// The scope whose table is made: the declarations of its program, its items and its definitions.
#[derive(Clone, Copy)]
pub struct TabledScope<'a> {
    pub alloc: Global,
    pub decls: &'a Decls,
    pub items: &'a [ItemDecl],
    pub defs: &'a [Def],
}
