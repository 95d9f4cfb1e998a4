// What a table is written of.
use cat_guard::Table;
use cat_pos::Files;
use cat_value::{Decls, ItemDecls};
use std::alloc::Global;

/// The table of a scope, with the declarations of its program, the items of the scope, and the files of the source.
#[derive(Clone, Copy)]
pub struct TableScene<'a> {
    pub alloc: Global,
    pub decls: &'a Decls,
    pub items: &'a ItemDecls,
    pub files: &'a Files,
    pub table: &'a Table,
}
