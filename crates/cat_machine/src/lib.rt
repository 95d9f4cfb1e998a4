//! Runs jump code over a pool of values, step by step as the machine's table says, to the outcome that the code gives.
#![tactic(auto)]

mod ending;
mod executing;
mod going;
mod layers;
mod loaded;
mod log;
mod machine;
mod operands;
mod starting;
mod steps;

pub use executing::{execute, execute_clean, execute_counted, execute_logged};
pub use loaded::Loaded;
pub use log::{Log, LogEntry};
