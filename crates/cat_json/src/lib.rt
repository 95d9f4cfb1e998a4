//! Reads values and the inputs of scopes from JSON.
#![tactic(auto)]

mod digits;
mod duration;
mod input;
mod known;
mod numeral;
mod path;
mod reading;
mod refusal;
mod scalar;
mod step;

pub use input::{ReadInputs, read_input, read_inputs, read_value};
pub use path::Path;
pub use refusal::{InputRefusal, PartRefusal, Reason};
pub use step::Step;
