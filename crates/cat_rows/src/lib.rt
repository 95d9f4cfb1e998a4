//! Rows of the tables: the words of a call as its line spells them, and how an answer shows texts and positions.
#![tactic(auto)]

mod arguments;
mod problem;
mod runs;
mod shown;
mod spelling;

pub use arguments::Arguments;
pub use problem::Problem;
pub use runs::show_numbers;
pub use shown::{add, escaped, show_pos, spot};
pub use spelling::{around, halves, source_bytes, spelled, with_bytes};
