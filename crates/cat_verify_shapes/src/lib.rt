//! Refuses code that has no shapes: whose runs may lack what an instruction works on.
#![tactic(auto)]

mod alike;
mod building;
mod calling;
mod defaults;
mod forms;
mod found;
mod leads;
mod lookups;
mod looping;
mod making;
mod operating;
mod operators;
mod owner;
mod pile;
mod refusal;
mod shape;
mod shapes;
mod step;
mod values;

pub use owner::{Owner, OwnerPlaces};
pub use refusal::ShapeRefusal;
pub use shapes::refuse_shapes;
