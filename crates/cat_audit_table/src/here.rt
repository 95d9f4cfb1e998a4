// Where a condition stands.
use cat_audit_keys::Place;
use cat_value::{Decls, ItemDecl};
use std::alloc::Global;

/// Where a condition stands: the declarations of its program, the items of its scope, and in whose definitions.
#[derive(Clone, Copy)]
pub struct ConditionContext<'a> {
    pub alloc: Global,
    pub decls: &'a Decls,
    pub items: &'a [ItemDecl],
    pub place: Place,
}
