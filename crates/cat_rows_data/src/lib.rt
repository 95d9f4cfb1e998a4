//! Calls of the libraries of numbers, days, orders, JSON, exceptions and regions, and their answers.
#![tactic(auto)]

mod amounts;
mod calls;
mod days;
mod declarations;
mod definitions;
mod dependencies;
mod enumerations;
mod forests;
mod fractions;
mod operands;
mod orders;
mod programs;
mod reads;
mod scopes;
mod shown;
mod spans;
mod spelling;
mod structures;
mod types;
mod values;
mod wholes;
mod writes;

pub use amounts::money_answer;
pub use calls::region_answer;
pub use days::day_answer;
pub use forests::{forest_answer, forest_chain_answer};
pub use fractions::frac_answer;
pub use operands::{day, frac, money, whole};
pub use orders::order_answer;
pub use reads::{read_input_answer, read_inputs_answer, read_value_answer};
pub use spans::span_answer;
pub use wholes::whole_answer;
pub use writes::{write_answer, write_input_answer, write_value_answer};
