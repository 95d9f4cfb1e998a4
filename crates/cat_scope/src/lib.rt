//! Programs of scopes, and what they mean: the outcome that each input of a scope has.
#![tactic(auto)]

mod copying;
mod defs;
mod expr;
mod forest;
mod operators;
mod programs;
mod stop;

pub use copying::copy_expr;
pub use defs::{
    Assertion, Assertions, Bodies, Body, Def, Defs, Except, Label, SourcePart, SourceParts,
};
pub use expr::{Arm, ArmPattern, Arms, Expr, Exprs, FieldValue, FieldValues, Literal};
pub use forest::{Forest, ForestGroup, ForestGroups, ForestTarget, ForestTargets};
pub use operators::{BinaryOp, SumKind, UnaryOp};
pub use programs::{Program, programs_are_well_formed};
pub use stop::Stop;

#[cfg(test)]
mod tests;
