// What a search finds.
use crate::bad::Leaves;
use cat_guard::CaseTree;

/// The tree of a target with its leaves that aren't covered, in preorder: a whole one, or one where the leaves were
/// spent before everything was explored.
#[derive(Debug, Drop)]
pub enum Search {
    Closed { tree: CaseTree, bad: Leaves },
    Spent { tree: CaseTree, bad: Leaves },
}
