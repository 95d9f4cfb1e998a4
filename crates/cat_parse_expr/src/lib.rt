//! Reads expressions by precedence climbing: the longest one at a level that begins at an index of a list of tokens.
#![tactic(auto)]

mod behind;
mod brackets;
mod cases;
mod climbing;
mod cue;
mod expression;
mod follow;
mod forms;
mod kinds;
mod levels;
mod limits;
mod listed;
mod literals;
mod matches;
mod measured;
mod miss;
mod opening;
mod prefixes;
mod refusal;
mod steps;
mod words;

pub use behind::Behind;
pub use climbing::operand;
pub use cue::{Cue, cue_is};
pub use expression::{expr, expr_reach, tokens_spell_one_expression};
pub use follow::Follow;
pub use kinds::a_type;
pub use limits::Limits;
pub use measured::{MatchArms, Measured, MeasuredFields, MeasuredNodes};
pub use miss::{Break, Miss, Read};
pub use opening::Opening;
pub use refusal::ParseRefusal;
pub use words::{is_lower, is_next, lower, upper, word};
