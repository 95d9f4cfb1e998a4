//! Lowers default terms to jump code with the same outcomes and the same log.
#![tactic(auto)]

mod arms;
mod calculus;
mod cases;
mod closing;
mod counts;
mod definitions;
mod expressions;
mod fields;
mod growing;
mod items;
mod lookups;
mod loops;
mod numbers;
mod outputs;
mod puts;
mod rows;
mod scene;
mod scopes;
mod starts;
mod targets;
mod terms;
mod types;
mod values;

pub use calculus::lower;
pub use growing::Growing;
pub use scene::LoweringScene;
