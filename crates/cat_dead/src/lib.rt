//! Definitions that decide in no run: what wins in no leaf of a scope's trees, and what a certificate shows of them,
//! whoever made it.
#![tactic(auto)]

mod checking;
mod dead;
mod judged;
mod laws;
mod leaf;
mod opened;
mod places;
mod plain;
mod reading;
mod walking;
mod winning;

pub use dead::check_dead;
pub use judged::{JudgedLeaf, JudgedLeaves, LeafJudgement};
pub use laws::{what_is_never_held_never_decides, what_wins_nowhere_is_never_held};
pub use places::is_same;
pub use walking::judged_leaves;
