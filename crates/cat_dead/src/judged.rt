// What is judged at the leaves of a tree.
use cat_pos::List;

/// How a target is judged in the region of a leaf.
#[derive(Clone, Copy, PartialEq, Eq, Debug)]
pub enum LeafJudgement {
    /// The region admits nothing.
    Nothing,
    /// The definition of that number among the target's holds.
    Wins(u32),
    /// None holds, or there is a conflict.
    NoWinner,
    Open,
}

/// A leaf by its index among the nodes of its tree.
#[derive(Clone, Copy, PartialEq, Eq, Debug)]
pub struct JudgedLeaf {
    pub node: usize,
    pub judged: LeafJudgement,
}

pub type JudgedLeaves = List<JudgedLeaf>;
