// The state of a run: references in the place of values.
use crate::layers::Layers;
use crate::log::Log;
use crate::operands::Operands;
use cat_pool::{Pool, Ref, References, Refs};
use cat_pos::Pos;
use cat_value::FaultKind;

/// Where a frame goes on that waits, and whether it has slots of its own.
#[derive(Clone, Copy)]
pub struct Return {
    pub back: usize,
    pub own: bool,
}

/// The elements that a loop has left, and whether it collects.
#[derive(Clone, Copy)]
pub struct LoopHead {
    pub left: Refs,
    pub collects: bool,
}

/// A definition that holds, by its number, with its value.
#[derive(Clone, Copy)]
pub struct HeldRef {
    pub definition: u32,
    pub value: Ref,
}

/// The nodes of the two truth values, once there are such.
#[derive(Clone, Copy)]
pub struct Truths {
    pub yes: Option<Ref>,
    pub no: Option<Ref>,
}

/// A state but for its place, with the pool and what the run has logged. Of each stack the last one is on top.
#[derive(Drop)]
pub struct Machine {
    pub pool: Pool,
    pub operands: Operands,
    /// The locals of each frame, with the way back to the one below.
    pub locals: Layers<Option<Return>, Ref>,
    /// The slots of each frame that has its own.
    pub slots: Layers<(), Option<Ref>>,
    /// The default frames, each with the target of its last check.
    pub defaults: Layers<Option<u32>, HeldRef>,
    /// The loops, each with what it collected.
    pub loops: Layers<LoopHead, Ref>,
    /// The scopes that are not entered yet, each with what was passed.
    pub pending: Layers<u32, Option<Ref>>,
    /// The constants of the code.
    pub constants: References,
    pub truths: Truths,
    pub log: Log,
}

/// How a run ends. What is told besides is in the state that it ends in.
#[derive(Clone, Copy)]
pub enum End {
    /// The structure of the outputs.
    Outputs(Ref),
    /// Two or more hold in the default frame on top, of this target.
    Conflict(u32),
    /// This target has no value.
    NoValue(u32),
    Fault(FaultKind, Pos),
}

/// Where a step leads.
#[derive(Clone, Copy)]
pub enum Stepped {
    To(usize),
    Over(End),
}
