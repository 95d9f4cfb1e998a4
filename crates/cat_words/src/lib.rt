//! The words of the command line, read by `clap` as one simple command.
#![tactic(auto)]

mod command;
mod command_line;

pub use command_line::{CommandLine, DEFAULT_CASES, read_words};
