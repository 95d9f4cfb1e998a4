//! Calls of the libraries that read sources, tokens, expressions and programs, and their answers.
#![tactic(auto)]

mod cuts;
mod expressions;
mod front;
mod gathers;
mod nodes;
mod places;
mod readings;
mod sources;
mod tokens;
mod towers;
mod weaves;
mod writer;

pub use cuts::cuts_answer;
pub use expressions::{node_positions_answer, tree_answer};
pub use gathers::{chain_answer, gather_answer};
pub use places::{program_answer, program_cuts_answer, program_swaps_answer};
pub use sources::tokens_of;
pub use tokens::{token_positions_answer, tokens_answer};
pub use towers::{tower_height_answer, tower_tree_answer};
pub use weaves::weave_answer;
