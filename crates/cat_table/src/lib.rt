//! The decision tables of a scope's targets: a line for each leaf of a search, with the conditions that lead there and
//! what decides the target where they hold.
#![tactic(auto)]

mod constant;
mod decision;
mod laws;
mod leaves;
mod lines;
mod named_type;
mod scene;
mod table;
mod tables;
mod telling;
mod term;
mod walking;
mod wanted;

pub use laws::{
    expressions_tell_their_types, judgings_agree_with_their_lines, tables_say_what_decides,
};
pub use leaves::leaves_among;
pub use named_type::NamedType;
pub use table::table_text;
pub use tables::{TableTexts, tables_text};
pub use wanted::has_target;
