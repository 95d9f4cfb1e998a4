// Where ways lead: each law is the contract of a function.
ghost use Rattle.std.specs.Prelude.{◌≡◌, ℕ, List, [], Some, IsTrue, length, take};
ghost use Rattle.cat_region.specs.Regions.{Constraints};
ghost use Rattle.cat_scope.specs.Names.{AllHave};
ghost use Rattle.cat_guard.specs.declared.table.Atom.{Atom as AtomSeen};
ghost use Rattle.cat_guard.specs.declared.tree.TreeNode.{TreeNode as NodeSeen};
ghost use Rattle.cat_guard.specs.Trees.{Tree, tree_of};
ghost use Rattle.cat_search.specs.Searched.{IsSearched, leaves_from};
ghost use Rattle.cat_search.specs.Ways.{ask_below, way_from};
ghost use Rattle.cat_search.specs.OnWays.{AreOnWays};

use cat_guard::Table;

/// The way to the node of a leaf leads to the leaf's region, and the leaves stand in the order of their nodes.
#[tactic(auto, using(crate::proofs::OnWayLemmas::on_ways))]
pub fn leaves_are_where_their_ways_lead()
    ensures { (atoms : List AtomSeen) (base : Constraints) (nodes : List NodeSeen) (tree : Tree)
        → tree_of nodes ≡ Some tree → AreOnWays atoms base nodes 0 (leaves_from atoms 0 base tree) }
{}

/// On the ways through a searched tree stand answers to atoms of the table alone.
pub fn searched_trees_ask_atoms_of_the_table(table: &Table)
    ensures { AllHave (λ t. (region : Constraints) (nodes : List NodeSeen) (tree : Tree) → tree_of nodes ≡ Some tree
        → IsSearched table.now.atoms t region tree
        → (n : ℕ) → IsTrue (ask_below (length table.now.atoms) (way_from [] (take n nodes)))) table.now.targets }
{}
