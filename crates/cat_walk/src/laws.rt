// What a walk says of a tree: each law is the contract of a function.
ghost use Rattle.std.specs.Prelude.{◌≡◌, ◌<◌, ℕ, Bool, Some, false, IsTrue};
ghost use Rattle.std.specs.List.{list_any, list_all};
ghost use Rattle.cat_region.specs.Regions.{Constraints, IsRegion};
ghost use Rattle.cat_scope.specs.Names.{AllHave};
ghost use Rattle.cat_guard.specs.declared.tree.CitedTree.{CitedTree as CitedSeen};
ghost use Rattle.cat_guard.specs.Trees.{Tree, Closed, expanded, is_whole, height, leaves};
ghost use Rattle.cat_guard.specs.Valuations.{dims_of};
ghost use Rattle.cat_walk.specs.declared.size.TheConstants.{PAST_MOST};
ghost use Rattle.cat_walk.specs.Sizes.{past_most};
ghost use Rattle.cat_walk.specs.Coverage.{is_uncovered, leaf_regions};
ghost use Rattle.cat_walk.specs.Walkable.{splits_pass, nodes_pass};
ghost use Rattle.cat_walk.specs.LeafPlaces.{lists_of};

use cat_guard::{Table, covered_leaves_are_closed};

/// The number at which code stops counting leaves is one more than the most of the definitions.
pub fn limit_is_as_stated()
    ensures { PAST_MOST ≡ past_most }
{}

/// A whole tree is closed in a region where none of its leaves is uncovered.
pub fn covered_trees_are_closed(table: &Table)
    ensures { AllHave (λ t. (region : Constraints) (tree : Tree) → IsRegion region
        → region.dims ≡ dims_of table.now.terms → IsTrue (is_whole tree)
        → list_any (is_uncovered table.now.atoms t) (leaf_regions table.now.atoms region tree) ≡ false
        → Closed table.now.atoms t region tree) table.now.targets }
{
    covered_leaves_are_closed(table);
}

/// The tree that a tree with citations stands for splits on the atoms alone that are written.
#[tactic(auto, using(crate::proofs::WholeLemmas::splits_as_written))]
pub fn trees_split_as_they_are_written()
    ensures { (pass : ℕ → Bool) (c : CitedSeen) (t : Tree) → expanded c ≡ Some t
        → IsTrue (list_all (nodes_pass pass) (lists_of c)) → IsTrue (splits_pass pass t) }
{}

/// A tree with citations stands for a whole tree, which is lower than it has leaves.
pub fn cited_trees_are_whole()
    ensures whole { (c : CitedSeen) (t : Tree) → expanded c ≡ Some t → IsTrue (is_whole t) }
    ensures low { (c : CitedSeen) (t : Tree) → expanded c ≡ Some t → height t < leaves t }
{}
