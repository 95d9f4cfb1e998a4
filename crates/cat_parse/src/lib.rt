//! Reads programs: a function a row, over the readers of expressions.
#![tactic(auto)]

mod blocks;
mod declaring;
mod expression;
mod fields;
mod heading;
mod items;
mod laws;
mod lines;
mod parser;
mod parts;
mod scopes;

pub use cat_parse_expr::ParseRefusal;
pub use laws::{
    a_refusal_has_one_place, expressions_are_read_rightly, no_expression_goes_on,
    programs_are_read_exactly, tokens_spell_one_program,
};
pub use parser::program;
