//! Listings of accepted sources: what the verifier of listings finds in them.
#![tactic(auto)]

mod laws;
mod small;

pub use laws::{
    built_code_is_well_listed, declarations_of_sources_are_spelled, files_of_sources_are_named,
    positions_of_code_are_of_files, spelled_tables_are_well_listed,
};
pub use small::{code_is_small, listings_of_sources_are_accepted, listings_of_sources_are_fair};
