//! Jump code: instructions with the tables that they name, and the machine that runs them, as definitions.
#![tactic(auto)]

mod code;
mod instr;

pub use code::{
    CasePlace, CasePlaces, Code, Constant, Constants, Tables, TargetEntries, TargetEntry,
    code_is_valid,
};
pub use instr::{Instr, Instrs};
