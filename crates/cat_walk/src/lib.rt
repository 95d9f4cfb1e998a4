//! Decision trees whose parts may be cited by name: whether they are closed, how large they are, and each part that
//! recurs written once.
#![tactic(auto)]

mod classes;
mod expanding;
mod laws;
mod meeting;
mod numbering;
mod place;
mod refusal;
mod sharing;
mod sharing_laws;
mod size;
mod walking;
mod writing;

pub use expanding::expand;
pub use laws::{
    cited_trees_are_whole, covered_trees_are_closed, limit_is_as_stated,
    trees_split_as_they_are_written,
};
pub use place::NodePlace;
pub use refusal::WalkRefusal;
pub use sharing::share;
pub use sharing_laws::{named_parts_are_subtrees, shared_trees_stand_for_the_tree};
pub use size::{PAST_MOST, TreeSize, tree_size};
pub use walking::{keep_live, to_next_side, walk};
