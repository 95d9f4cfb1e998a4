//! The structures, enumerations and scopes that inputs are read by.

use crate::enumerations::enumerations;
use crate::scopes::scopes;
use crate::structures::structures;
use cat_value::Decls;
use std::alloc::{AllocError, Global};

/// The names of the scopes, and their numbers.
pub const SCOPES: [(&str, u32); 4] = [
    ("S", 0),
    ("Kinds", 1),
    ("IncomeTaxComputation", 2),
    ("Tax", 3),
];

#[tactic(auto, using(crate::proofs::DeclaredSound::declarations_are_sound))]
pub fn declarations(alloc: Global) -> Result<Decls, AllocError> {
    let structures = structures(alloc, "é")?;
    let enumerations = enumerations(alloc, "Aé", "A𐐀")?;
    Ok(Decls::from_parts(structures, enumerations, scopes(alloc)?))
}
