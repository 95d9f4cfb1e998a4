//! What a tree means: the program that it stands for, or what stands against it.
#![tactic(auto)]

mod fault;
mod laws;
mod limits;
mod typed;

pub use fault::{Fault, Refusal};
pub use laws::{
    cases_are_counted, definitions_are_counted, each_tree_is_accepted_or_refused,
    limits_are_as_stated, meanings_have_their_types, programs_of_trees_are_well_formed,
    refused_trees_have_no_program, scope_calls_are_written, symbols_stand_for_each_operator,
    trees_have_one_program, unknown_names_are_those_of_both_walks,
};
pub use limits::{MOST_CASES, MOST_DEFINITIONS, MOST_ITEMS, MOST_PARAMETERS};
pub use typed::{Flat, Local, Locals, Typed};
