// The guards of definitions.
use cat_pos::{Boxed, List, Numbers, Pos};

/// The condition of a definition as connectives over atoms, which are named by their numbers in the table.
#[cycle(guard)]
#[derive(Debug, Drop)]
pub enum Guard {
    Constant(bool),
    Atom(usize),
    Not(Boxed<Guard>),
    Both(Boxed<Guard>, Boxed<Guard>),
    Either(Boxed<Guard>, Boxed<Guard>),
    /// One holds, and the other does not.
    Differ(Boxed<Guard>, Boxed<Guard>),
    /// The first says which of the others counts: the second where it is true.
    Choice(Boxed<Guard>, Boxed<Guard>, Boxed<Guard>),
}

/// A definition of a target, by its guard.
#[derive(Debug, Drop)]
pub struct GuardDef {
    /// Its number among the definitions of its scope, in source order.
    pub number: u32,
    pub guard: Guard,
    /// The position of the word `definition` or `rule`.
    pub pos: Pos,
}

pub type GuardDefs = List<GuardDef>;

/// A group of definitions of one target.
#[derive(Debug, Drop)]
pub struct GuardGroup {
    /// The numbers of its definitions among those of the target, in source order.
    pub defs: Numbers,
    /// The numbers of the groups of the target that except this one, in their order.
    pub excepted_by: Numbers,
}

pub type GuardGroups = List<GuardGroup>;
