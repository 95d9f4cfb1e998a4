//! Values as nodes of a pool that only grows: a part of a value is a reference to an earlier node, so that a value is
//! used as often as one likes and copied nowhere.
#![tactic(auto)]

mod loading;
mod node;
mod pool;
mod unloading;

pub use node::{PoolNode, Ref, References, Refs};
pub use pool::{Mark, Pool};

#[cfg(test)]
mod tests;
