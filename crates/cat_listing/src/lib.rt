//! Jump code as a listing.
#![tactic(auto)]

mod decls;
mod instrs;
mod texts;
mod whole;

pub use whole::listing;
