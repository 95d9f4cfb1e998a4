//! What follows from replies: a check says yes to what an audit wrote, no declared name breaks a line, and some room is
//! enough for the reply of a run. Each law is the contract of a function.
#![tactic(auto)]

mod checked_audit;
mod recheck;
mod room;
mod unbroken;

pub use checked_audit::{
    accepted_programs_are_unbroken, complete_audits_are_answered_yes,
    what_is_written_over_is_answered_yes,
};
pub use recheck::{
    certificates_of_version_2_are_answered_yes, what_an_audit_writes_is_certified,
    what_is_written_over_is_certified,
};
pub use room::told_replies_fit;
pub use unbroken::declared_names_are_unbroken;
