//! The tables that the lines of an image tell, or the first line that names, spells or declares something wrong.
#![tactic(auto)]

mod constants;
mod declared;
mod heights;
mod holding;
mod in_order;
mod laws;
mod lines;
mod members;
mod named;
mod names;
mod numbers;
mod places;
mod plain_values;
mod refusal;
mod scoping;
mod tables;
mod targets;
mod types;

pub use laws::lines_tell_one_table;
pub use places::{FunctionPlace, FunctionPlaces};
pub use refusal::TableRefusal;
pub use tables::{Told, tell};
