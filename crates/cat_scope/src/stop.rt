// What comes in place of a value.
use cat_pos::{Pos, Positions};
use cat_value::{FaultKind, Target};

/// Why an expression, a target or a scope gives no value.
#[derive(Debug, Drop)]
pub enum Stop {
    /// Several definitions of a target hold: their positions in source order.
    Conflict(Target, Positions),
    /// No definition of a target holds; the position of the name that has no value.
    NoValue(Target, Pos),
    Fault(FaultKind, Pos),
    /// An operation that has no result for values of these types. No well-typed program comes there.
    Stuck,
}
