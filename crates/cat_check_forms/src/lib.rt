//! What single forms of expressions are, where their parts are known: each with its type, or what stands against it.
#![tactic(auto)]

mod cases;
mod complete;
mod forms;
mod heights;
mod here;
mod lists;
mod names;
mod number_set;
mod parts;

pub use cases::{
    case, case_first, case_named, case_with, content_type, scope_named, structure_named, sum_type,
};
pub use forms::{choice, combine, each, element_local, field, matched_type, start_local, test};
pub use here::Here;
pub use lists::{call, called_output, counted, list, matched, no_elements, scope_call, structure};
pub use names::{function, name, output};
pub use parts::{Owner, arm_pattern, part_named};
