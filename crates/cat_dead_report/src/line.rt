// What is said of a definition.
use cat_guard::CaseTree;
use cat_pos::{List, Pos};
use cat_value::{Input, Outcome};

/// What a report says of a definition.
#[derive(Debug, Drop)]
pub enum DeadLine {
    /// It is among the deciders of a run on this input.
    Decides(Input),
    /// It isn't, though it wins where this input is: the region there constrains inputs alone.
    Masked(Input, Outcome),
    /// It isn't, and the region where it wins constrains what a run computes: the position of that, or of the function
    /// whose arguments it hangs on.
    Derived(Pos, Input, Outcome),
    /// It wins in none of the leaves that were made before they were spent.
    Budget,
    /// It wins in no leaf.
    Never,
}

pub type DeadLines = List<DeadLine>;

/// What is said of the definitions of a target, and the tree in whose leaves they win or don't.
#[derive(Debug, Drop)]
pub struct TargetLines {
    /// For each definition the number of its line: those that stand at one place have one.
    pub places: List<usize>,
    pub lines: DeadLines,
    pub tree: CaseTree,
    /// Whether nothing of the tree is left to explore.
    pub whole: bool,
}

pub type ReportLines = List<TargetLines>;
