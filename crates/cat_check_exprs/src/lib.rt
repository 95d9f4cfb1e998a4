//! What expressions and the lines of scope blocks mean, in one walk: each resolved, with its type, or what stands
//! against it.
#![tactic(auto)]

mod aims;
mod binders;
mod blocks;
mod conditions;
mod definitions;
mod heads;
mod infer;
mod known;
mod leaves;
mod lists;
mod locals;
mod parted;
mod said;
mod walk;

pub use aims::{Aim, aim_of};
pub use blocks::{add_block, add_item};
pub use conditions::{condition, definition_condition};
pub use definitions::{assertion, definition, rule};
pub use infer::inferred;
pub use known::{BlockCondition, KnownCondition, KnownConditions, condition_for};
pub use said::Said;
