//! Types, values, declarations and outcomes: what a program computes with, which values are of which type, and how high
//! types are.
#![tactic(auto)]

mod declaration;
mod decls;
mod laws;
mod least;
mod outcome;
mod table;
mod ty;
mod typing;
mod value;

pub use declaration::{
    Case, Cases, Enumeration, Enumerations, Field, Fields, ItemDecl, ItemDecls, Kind, Scope,
    Scopes, Structure, Structures,
};
pub use decls::Decls;
pub use laws::{
    declarations_are_sound, defaults_are_well_typed, heights_are_one_above_their_parts,
    values_are_no_higher_than_their_types,
};
pub use least::least_value;
pub use outcome::{FaultKind, Input, Inputs, Outcome, Target};
pub use table::{HIGHEST, TypeHeights};
pub use ty::{Ty, Tys, copy_ty, same_ty};
pub use typing::{day_is_in_range, is_declared, money_fits, span_fits, well_typed, whole_fits};
pub use value::{Value, Values, copy, copy_all};

#[cfg(test)]
mod tests;
