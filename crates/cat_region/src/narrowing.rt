// Cuts that were made.
use crate::cut::Cut;

/// A cut of the dimension of that number, and its answer.
#[derive(Clone, Copy, PartialEq, Eq, Debug)]
pub struct Narrowing {
    pub dim: usize,
    pub cut: Cut,
    pub yes: bool,
}
