// What is found of a target.
use cat_guard::CaseTree;
use cat_pos::Pos;
use cat_value::{FaultKind, Input, Outcome};

/// What a run says of a target in a region where its rules come to a conflict or to nothing. The run is on the input
/// that the region's points are.
#[derive(Debug, Drop)]
pub enum Finding {
    /// A conflict, or no value: the outcome, and the input.
    Found(Outcome, Input),
    /// A fault in front of what is wrong, where the region constrains inputs alone.
    Masked(FaultKind, Pos, Input),
    /// Nothing is known, since the region constrains what a run computes: the position of that, or of the function
    /// whose arguments it hangs on; and a value or a fault.
    Derived(Pos, Input, Outcome),
}

/// What an audit says of a target.
#[derive(Debug, Drop)]
pub enum Line {
    /// Its tree is closed.
    Covered,
    /// Its tree has leaves that aren't covered, and this is what they come to.
    Bad(Finding),
    /// Its leaves were spent before all was explored, and none of them is bad.
    Budget,
}

/// The line of a target, and its tree.
#[derive(Debug, Drop)]
pub struct TargetLine {
    pub line: Line,
    pub tree: CaseTree,
}
