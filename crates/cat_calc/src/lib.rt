//! The default calculus: programs as terms, made of the forests of their exceptions. Each input has the same outcome by
//! both.
#![tactic(auto)]

mod calcs;
mod items;
mod laws;
mod programs;
mod scopes;
mod table;
mod term;
mod terms;

pub use calcs::{Calc, CalcScope, CalcScopes, ItemTerms, TermsOfItems, calculi_are_well_formed};
pub use laws::calculi_go_on;
pub use programs::desugar;
pub use term::{DefaultTerm, DefaultTerms, Justification};
pub use terms::target_term;
