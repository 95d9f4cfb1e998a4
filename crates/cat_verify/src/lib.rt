//! Verifies an image: tables and code of which each run ends, and none is stuck.
#![tactic(auto)]

mod abroad;
mod buckets;
mod calls;
mod jumps;
mod numbers;
mod owners;
mod refusal;
mod stamps;
mod starts;
mod verified;
mod verifying;

pub use refusal::VerifyRefusal;
pub use verified::Verified;
pub use verifying::verify;

#[cfg(test)]
mod tests;
