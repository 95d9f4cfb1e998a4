//! The operators of the language on values that have no parts.
#![tactic(auto)]

mod comparing;
mod faults;
mod numbers;
mod operating;
mod scalar;

pub use operating::{convert, operate};
pub use scalar::{NoResult, Scalar};
