// What shared trees stand for: each law is the contract of a function.
ghost use Rattle.std.specs.Prelude.{◌≡◌, [], Some, IsTrue};
ghost use Rattle.cat_guard.specs.Trees.{Tree, expanded, is_whole, named_from};
ghost use Rattle.cat_walk.specs.Sharing.{shared, named_in};

/// A shared tree stands for the tree that was shared.
#[tactic(auto, using(crate::proofs::SharedLaws::expanded_shared))]
pub fn shared_trees_stand_for_the_tree()
    ensures { (t : Tree) → IsTrue (is_whole t) → expanded (shared t) ≡ Some t }
{}

/// The named parts of a shared tree stand for those of its subtrees that get names.
#[tactic(auto, using(crate::proofs::SharedLaws::named_shared))]
pub fn named_parts_are_subtrees()
    ensures { (t : Tree) → IsTrue (is_whole t) → named_from (Some []) (shared t).names ≡ Some (named_in t) }
{}
