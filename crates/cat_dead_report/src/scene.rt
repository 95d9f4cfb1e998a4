// Where a definition is looked for.
use cat_code::Code;
use cat_guard::{Table, TableTarget};
use cat_scope::Program;
use std::alloc::Global;

/// A program with its code, a table of one of its scopes, and a target of it by its number.
#[derive(Clone, Copy)]
pub(crate) struct TargetScene<'a> {
    pub(crate) alloc: Global,
    pub(crate) program: &'a Program,
    pub(crate) code: &'a Code,
    pub(crate) table: &'a Table,
    pub(crate) number: u32,
    pub(crate) target: &'a TableTarget,
    /// Nothing stops a run of the scope before the target is judged, and nothing but a conflict of its own stops it
    /// there.
    pub(crate) faultless: bool,
}
