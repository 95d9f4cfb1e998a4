//! The table of a scope: what its conditions ask, as terms and atoms numbered by first appearance, and the guards of
//! the definitions of each target.
#![tactic(auto)]

mod atom_table;
mod compared;
mod comparison;
mod connectives;
mod constant;
mod defs;
mod groups;
mod guard;
mod here;
mod item;
mod key_table;
mod numbering;
mod path;
mod scene;
mod table;
mod tabling;
mod target;
mod term_table;
mod token;

pub use atom_table::AtomTable;
pub use guard::condition_guard;
pub use here::ConditionContext;
pub use key_table::KeyTable;
pub use numbering::Numbering;
pub use table::audit_table;
pub use tabling::audited_tables;
pub use term_table::TermTable;
