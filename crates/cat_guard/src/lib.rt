//! The guards of a scope's definitions: the table of what they ask, and how its targets are judged in regions.
#![tactic(auto)]

mod asked;
mod conjuncts;
mod guard;
mod judge;
mod judgement;
mod judging_laws;
mod laws;
mod levels;
mod live;
mod living;
mod pruned;
mod regions;
mod table;
mod tally;
mod tree;
mod truth;
mod whole;

pub use asked::asked_atoms;
pub use conjuncts::{Conjunct, Conjuncts, DefConjuncts};
pub use guard::{Guard, GuardDef, GuardDefs, GuardGroup, GuardGroups};
pub use judge::{judge_box, winner};
pub use judgement::Judgement;
pub use judging_laws::{
    bad_regions_cover_nothing, closed_trees_cover_each_valuation,
    closed_trees_cover_what_is_admitted, covered_leaves_are_closed, empty_regions_close_each_tree,
    judgings_of_regions_hold, narrowing_keeps_what_is_judged, narrowing_keeps_what_is_live,
    regions_answer_exactly, room_closes_no_tree, targets_hang_on_their_own_atoms,
};
pub use laws::{
    connectives_are_known_by_their_parts, known_formulas_hold, known_judgings_hold,
    more_answers_keep_what_is_known,
};
pub use levels::{Level, Levels};
pub use live::{LiveGroup, LiveGroups};
pub use living::{judge_live, live_winner};
pub use regions::{answer_atom, whole_region};
pub use table::{
    Atom, Atoms, InputPath, ScopeTables, Table, TableTarget, TableTargets, Term, Terms,
};
pub use tree::{CaseTree, CitedNames, CitedNode, CitedNodes, CitedTree, TreeNode, TreeNodes};
