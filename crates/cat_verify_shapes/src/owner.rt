// Scopes and functions with their instructions.
use cat_pos::Numbers;

/// A scope, or a function of it.
#[derive(Clone, Copy, Debug, PartialEq, Eq)]
pub struct Owner {
    pub scope: u32,
    pub function: Option<u32>,
}

/// The instructions of a scope or a function, in their order.
#[derive(Debug, Drop)]
pub struct OwnerPlaces {
    pub owner: Owner,
    pub places: Numbers,
}
