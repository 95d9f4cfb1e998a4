// What a scope is given, and how its run ends.
use crate::{Value, Values};
use cat_pos::{List, Pos, Positions};

/// The values given to a scope: one entry for each of its items in their order, `None` where nothing is given.
pub type Input = List<Option<Value>>;

pub type Inputs = List<Input>;

/// A target of definitions: an item of a scope or, where `inner` is there, that item of the scope that it calls.
#[derive(Clone, Copy, PartialEq, Eq, Debug)]
pub struct Target {
    pub scope: u32,
    pub item: u32,
    pub inner: Option<u32>,
}

/// Why an expression or an assertion has no value.
#[derive(Clone, Copy, PartialEq, Eq, Debug)]
pub enum FaultKind {
    Overflow,
    DivisionByZero,
    AmbiguousDate,
    Uncomparable,
    AssertionFailed,
}

/// How the run of a scope ends.
#[derive(Debug, Drop)]
pub enum Outcome {
    /// The outputs, in the order of their declarations.
    Value(Values),
    /// Several definitions of a target hold: their positions in source order.
    Conflict(Target, Positions),
    /// No definition of a target holds; the position of the name that has no value.
    NoValue(Target, Pos),
    /// A fault, and where it stands.
    Fault(FaultKind, Pos),
}
