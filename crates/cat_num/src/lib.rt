//! Exact numbers: whole numbers, amounts of money and fractions, with the exact result of each operation or a fault.
#![tactic(auto)]

mod fault;
mod frac;
mod laws;
mod literal;
mod money;
mod round;
mod text;
mod whole;

pub use fault::NumFault;
pub use frac::{Frac, are_equal, frac_of_decimal};
pub use laws::{
    amounts_read_back, decimals_are_shortest, decimals_have_values, divisors_are_greatest,
    fractions_are_ordered, fractions_read_back, lowest_terms_are_unique,
    rounding_is_to_the_nearest,
};
pub use literal::DecimalLiteral;
pub use money::{Money, money_over, money_times, round_units};
pub use round::{round_half_away, truncate};
pub use text::{decimal_text, money_text};
pub use whole::Whole;
