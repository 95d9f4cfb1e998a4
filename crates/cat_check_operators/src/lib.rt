//! Operators, conversions and literals: which row of the table the types of the operands pick, and the type that
//! follows.
#![tactic(auto)]

mod literals;
mod operations;
mod resolved;
mod rows;
mod types;

pub use literals::literal;
pub use operations::{as_expected, binary, prefixed, sum};
pub use resolved::Resolved;
pub use types::{element_of, enumeration_of, expected_element, is_boolean, structure_of};
