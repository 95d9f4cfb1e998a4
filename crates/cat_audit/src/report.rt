// What an audit says.
use crate::Line;
use cat_guard::{CaseTree, ScopeTables};
use cat_pos::{List, Text};

/// What an audit says of a scope.
#[derive(Clone, Copy, PartialEq, Eq, Debug)]
pub enum Verdict {
    /// A target has an input on which its rules fail.
    Found,
    /// The rules of a target fail in a region of inputs, and a fault hides it.
    Masked,
    /// Of a target, or of a called scope, too little is known.
    Undecided,
    /// Each target is covered, here and in the called scopes.
    Complete,
}

/// The line of a target, with the target's name.
#[derive(Debug, Drop)]
pub struct NamedLine {
    pub name: Text,
    pub line: Line,
}

pub type NamedLines = List<NamedLine>;

/// A called scope that isn't Complete. Its name is that of the item that calls it; in a scope call it is that of the
/// scope.
#[derive(Debug, Drop)]
pub struct CalledLine {
    pub name: Text,
    pub scope: u32,
    pub verdict: Verdict,
}

pub type CalledLines = List<CalledLine>;

/// What an audit says of one scope: a line for each target, in their order, and then one for each called scope that
/// isn't Complete.
#[derive(Debug, Drop)]
pub struct Section {
    pub scope: u32,
    pub lines: NamedLines,
    pub called: CalledLines,
    pub verdict: Verdict,
}

pub type Sections = List<Section>;

pub type CaseTrees = List<CaseTree>;

/// What an audit says: a section for each table, the last of them that of the audited scope; and the trees that were
/// searched for it, one for each target of each table, in their order.
#[derive(Debug, Drop)]
pub struct Report {
    pub tables: ScopeTables,
    pub sections: Sections,
    pub trees: CaseTrees,
}
