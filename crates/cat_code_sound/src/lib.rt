//! What holds of valid code: each law is the contract of a function.
#![tactic(auto)]

mod ending;

pub use ending::valid_code_runs_to_an_end;
