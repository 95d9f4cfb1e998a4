// Leaves that aren't covered.
use cat_pos::List;

/// How a target's rules fail in a region: two of them hold, or none does where one must.
#[derive(Clone, Copy, PartialEq, Eq, Debug)]
pub enum Flaw {
    Conflict,
    NoValue,
}

/// A leaf in whose region the target isn't judged covered.
#[derive(Clone, Copy, PartialEq, Eq, Debug)]
pub struct BadLeaf {
    /// Its place among the nodes of the tree, from 0. The splits above it lead to its region.
    pub leaf: usize,
    pub flaw: Flaw,
}

pub type Leaves = List<BadLeaf>;
