//! Turns the log of a run into its trace: a line for each judging that ended, with the definition that decided it and
//! the heading over that.
#![tactic(auto)]

mod deciding;
mod placing;
mod starts;

pub use deciding::trace_lines;
