//! Writes values, inputs and outcomes.
#![tactic(auto)]

mod answer;
mod members;
mod writing;

pub use answer::{
    answer_text, fault_text, input_text, named_position, position_text, target_text, value_text,
};

#[cfg(test)]
mod tests;
