// What judging in regions says of valuations: each law is the contract of a function.
ghost use Rattle.std.specs.Prelude.{◌≡◌, ℕ, Bool, Option, List, Some, [], IsTrue, slice_get};
ghost use Rattle.cat_region.specs.declared.dim.Dim.{Dim as Dimension};
ghost use Rattle.cat_region.specs.declared.narrowing.Narrowing.{Narrowing as Narrowed};
ghost use Rattle.cat_region.specs.Regions.{Constraints, Valuation, IsRegion, IsValuation, Admits, IsInhabited, IsEmpty};
ghost use Rattle.cat_region.specs.Regions.{with_narrowing, is_cut_at};
ghost use Rattle.cat_scope.specs.Names.{AllHave};
ghost use Rattle.cat_guard.specs.declared.table.Atom.{Atom as AtomSeen};
ghost use Rattle.cat_guard.specs.declared.table.TableTarget.{TableTarget as TargetSeen};
ghost use Rattle.cat_guard.specs.declared.tree.TreeNode.{TreeNode as NodeSeen};
ghost use Rattle.cat_guard.specs.declared.tree.CitedTree.{CitedTree as CitedSeen};
ghost use Rattle.cat_guard.specs.Formulas.{IsSo, IsKept};
ghost use Rattle.cat_guard.specs.Judged.{answers_in, judged_in, covers};
ghost use Rattle.cat_guard.specs.TableJudging.{Covers, decided};
ghost use Rattle.cat_guard.specs.Trees.{Tree, Leaf, Closed, AreClosed, IsCitedClosed};
ghost use Rattle.cat_guard.specs.Valuations.{dims_of, holds_at};
ghost use Rattle.cat_guard.specs.Verdicts.{Stands, IsFurther, verdict_of};
ghost use Rattle.cat_guard.specs.declared.live.LiveGroup.{LiveGroup as LiveSeen};
ghost use Rattle.cat_guard.specs.Live.{IsLiveOf};
ghost use Rattle.cat_guard.specs.Judgements.{IsAnswer, atoms_in, is_bad};

use crate::Table;

/// What a region answers of an atom is so for each valuation that it admits, and it has no answer only where it admits
/// nothing or valuations of both answers.
pub fn regions_answer_exactly(table: &Table)
    ensures so { (region : Constraints) (v : Valuation) → IsRegion region → region.dims ≡ dims_of table.now.terms
        → Admits region v → (a : ℕ) → IsSo (answers_in table.now.atoms region a) (holds_at table.now.atoms v a) }
    ensures exact { (region : Constraints) → IsRegion region → region.dims ≡ dims_of table.now.terms
        → (a : ℕ) (atom : AtomSeen) → slice_get table.now.atoms a ≡ Some atom
        → IsAnswer table.now.atoms region a (answers_in table.now.atoms region a) }
{}

/// What is judged in a region is so for each valuation that it admits: the same definition holds, none does, or there
/// is a conflict of this very target.
pub fn judgings_of_regions_hold(table: &Table)
    ensures { AllHave (λ t. (region : Constraints) (v : Valuation) → IsRegion region
        → region.dims ≡ dims_of table.now.terms → Admits region v
        → Stands t.target t.defs (judged_in table.now.atoms region t) (decided t (holds_at table.now.atoms v)).end)
        table.now.targets }
{}

/// What is judged in a region stays so where a narrowing leaves something admitted.
pub fn narrowing_keeps_what_is_judged(table: &Table)
    ensures { AllHave (λ t. (region : Constraints) (n : Narrowed) → IsRegion region
        → region.dims ≡ dims_of table.now.terms → IsTrue (is_cut_at region.dims n.dim n.cut)
        → IsInhabited (with_narrowing region n)
        → IsFurther (judged_in table.now.atoms region t) (judged_in table.now.atoms (with_narrowing region n) t))
        table.now.targets }
{}

/// What is live of a target stays so where a narrowing leaves something admitted: it is judged as the target is.
pub fn narrowing_keeps_what_is_live(table: &Table)
    ensures { (t : TargetSeen) (region : Constraints) (n : Narrowed) (live : List LiveSeen) → IsRegion region
        → region.dims ≡ dims_of table.now.terms → IsTrue (is_cut_at region.dims n.dim n.cut)
        → IsInhabited (with_narrowing region n) → IsLiveOf t (answers_in table.now.atoms region) live
        → IsLiveOf t (answers_in table.now.atoms (with_narrowing region n)) live }
{}

/// What truth values make of a target hangs on those of its own atoms alone.
pub fn targets_hang_on_their_own_atoms()
    ensures { (t : TargetSeen) (holds : ℕ → Bool) (other : ℕ → Bool)
        → AllHave (λ a. holds a ≡ other a) (atoms_in t) → decided t holds ≡ decided t other }
{}

/// A leaf is closed in a region that is judged covered.
pub fn covered_leaves_are_closed(table: &Table)
    ensures { AllHave (λ t. (region : Constraints) → IsRegion region → region.dims ≡ dims_of table.now.terms
        → IsTrue (covers t.may_be_empty (judged_in table.now.atoms region t))
        → Closed table.now.atoms t region Leaf) table.now.targets }
{}

/// A region that is judged a conflict, or empty where that isn't allowed, admits no valuation that covers the target.
pub fn bad_regions_cover_nothing(table: &Table)
    ensures { AllHave (λ t. (region : Constraints) (v : Valuation) → IsRegion region
        → region.dims ≡ dims_of table.now.terms
        → IsTrue (is_bad t.may_be_empty (judged_in table.now.atoms region t)) → Admits region v
        → ¬ Covers t (holds_at table.now.atoms v)) table.now.targets }
{}

/// A region that admits nothing closes every tree.
#[tactic(auto, using(crate::proofs::TreeLaws::empty_closed))]
pub fn empty_regions_close_each_tree()
    ensures { (atoms : List AtomSeen) (t : TargetSeen) (region : Constraints) (tree : Tree) → IsEmpty region
        → Closed atoms t region tree }
{}

/// Where trees are closed hangs on what a region admits, and not on the room that it has for more narrowings.
#[tactic(auto, using(crate::proofs::TreeLaws::closed_alike))]
pub fn room_closes_no_tree()
    ensures { (atoms : List AtomSeen) (t : TargetSeen) (region : Constraints) (other : Constraints) (tree : Tree)
        → region.dims ≡ other.dims → region.narrowings ≡ other.narrowings → Closed atoms t region tree
        → Closed atoms t other tree }
{}

/// A tree that is closed in a region covers each valuation that the region admits, also where parts of it are cited.
pub fn closed_trees_cover_what_is_admitted()
    ensures trees { (atoms : List AtomSeen) (t : TargetSeen) (region : Constraints) (tree : Tree) (v : Valuation)
        → Closed atoms t region tree → Admits region v → Covers t (holds_at atoms v) }
    ensures nodes { (atoms : List AtomSeen) (t : TargetSeen) (region : Constraints) (nodes : List NodeSeen)
        (v : Valuation) → AreClosed atoms t region nodes → Admits region v → Covers t (holds_at atoms v) }
    ensures cited { (atoms : List AtomSeen) (t : TargetSeen) (region : Constraints) (tree : CitedSeen)
        (v : Valuation) → IsCitedClosed atoms t region tree → Admits region v → Covers t (holds_at atoms v) }
{}

/// A tree that is closed before any narrowing covers each valuation.
pub fn closed_trees_cover_each_valuation()
    ensures nodes { (atoms : List AtomSeen) (t : TargetSeen) (dims : List Dimension) (room : ℕ) (nodes : List NodeSeen)
        → AreClosed atoms t (record { dims = dims; narrowings = []; room = room }) nodes
        → (v : Valuation) → IsValuation dims v → Covers t (holds_at atoms v) }
    ensures cited { (atoms : List AtomSeen) (t : TargetSeen) (dims : List Dimension) (room : ℕ) (tree : CitedSeen)
        → IsCitedClosed atoms t (record { dims = dims; narrowings = []; room = room }) tree
        → (v : Valuation) → IsValuation dims v → Covers t (holds_at atoms v) }
{}
