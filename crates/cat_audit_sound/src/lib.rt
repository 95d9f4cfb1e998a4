//! What audits rest on: how runs follow the guards of their definitions, and the input that the points of a region are.
//! Each law is the contract of a function.
#![tactic(auto)]

mod audits;
mod guard_laws;
mod input;
mod input_laws;
mod leaf_laws;
mod part;
mod parts;
mod place;
mod pointed;
mod points;

pub use audits::{audited_programs_go_on, audited_programs_have_no_gap};
pub use guard_laws::guards_tell;
pub use input::input_of;
pub use input_laws::free_terms_have_their_points;
pub use leaf_laws::{
    bad_regions_of_free_terms_fail, inputs_of_valuations_are_well_typed,
    values_come_of_covered_targets,
};
pub use parts::MOST_PARTS;
