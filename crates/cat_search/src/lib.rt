//! The search for the decision tree of a target, and the regions of its leaves.
#![tactic(auto)]

mod asked;
mod bad;
mod choice;
mod following;
mod found;
mod laws;
mod node;
mod searched;
mod searching;
mod way;
mod way_laws;

pub use bad::{BadLeaf, Flaw, Leaves};
pub use found::Search;
pub use laws::{
    searched_trees_part_what_is_admitted, searched_trees_stay_within_the_cells,
    terms_with_values_admit_something, trees_without_bad_leaves_are_closed,
};
pub use searched::{search, search_in};
pub use way::{Answer, Way};
pub use way_laws::{leaves_are_where_their_ways_lead, searched_trees_ask_atoms_of_the_table};
