// What is so of the trees that a search makes: each law is the contract of a function.
ghost use Rattle.std.specs.Prelude.{◌≡◌, ◌≤◌, ◌+◌, ℕ, List, [], IsTrue};
ghost use Rattle.std.specs.List.{list_all};
ghost use Rattle.cat_region.specs.Regions.{Constraints, Valuation, IsRegion, IsInhabited, Admits};
ghost use Rattle.cat_scope.specs.Names.{AllHave};
ghost use Rattle.cat_guard.specs.declared.table.Term.{Term as TermSeen};
ghost use Rattle.cat_guard.specs.Trees.{Tree, Closed, is_whole, leaves};
ghost use Rattle.cat_guard.specs.Valuations.{dims_of};
ghost use Rattle.cat_search.specs.Cells.{cells};
ghost use Rattle.cat_search.specs.Parted.{ends, IsInOne};
ghost use Rattle.cat_search.specs.Searched.{everything, has_value, IsSearched, bad_among, leaves_from, rests};

use cat_guard::{Table, covered_leaves_are_closed};

/// Something is admitted before any narrowing where each term has a value.
#[tactic(auto, using(crate::proofs::ValueLemmas::whole))]
pub fn terms_with_values_admit_something()
    ensures { (terms : List TermSeen) → IsTrue (list_all has_value (dims_of terms)) → IsInhabited (everything terms) }
{}

/// A whole tree none of whose leaves is bad is closed.
pub fn trees_without_bad_leaves_are_closed(table: &Table)
    ensures { AllHave (λ t. (region : Constraints) (place : ℕ) (tree : Tree) → IsRegion region
        → region.dims ≡ dims_of table.now.terms → IsTrue (is_whole tree)
        → bad_among table.now.atoms t (leaves_from table.now.atoms place region tree) ≡ []
        → Closed table.now.atoms t region tree) table.now.targets }
{
    covered_leaves_are_closed(table);
}

/// The regions of the leaves and rests of a searched tree are disjoint, and together they admit what the tree's region
/// admits.
pub fn searched_trees_part_what_is_admitted(table: &Table)
    ensures { AllHave (λ t. (region : Constraints) (tree : Tree) (v : Valuation)
        → IsSearched table.now.atoms t region tree → Admits region v → IsInOne v (ends table.now.atoms region tree))
        table.now.targets }
{}

/// A searched tree has at most as many leaves and rests as the cuts of its target make cells.
pub fn searched_trees_stay_within_the_cells(table: &Table)
    ensures { AllHave (λ t. (tree : Tree) → IsSearched table.now.atoms t (everything table.now.terms) tree
        → leaves tree + rests tree ≤ cells table.now.terms table.now.atoms t) table.now.targets }
{}
