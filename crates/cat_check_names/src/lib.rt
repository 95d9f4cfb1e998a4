//! What names name, by tables in which each is looked up in constant time; and the names of blocks and expressions that
//! name nothing, or stand twice.
#![tactic(auto)]

mod blocks;
mod bound;
mod building;
mod here;
mod leaves;
mod lists;
mod lookups;
mod name_table;
mod named;
mod only_cases;
mod outputs;
mod repeated;
mod tables;
mod types;
mod unknown;
mod written;

pub use blocks::add_block;
pub use here::NamingContext;
pub use lists::{Faults, Texts};
pub use name_table::NameTable;
pub use named::{Named, found, table_of};
pub use only_cases::OnlyCases;
pub use outputs::Outputs;
pub use repeated::add_repeated;
pub use tables::NameTables;
pub use types::TypeTable;
pub use unknown::add_unknown;
pub use written::Written;
