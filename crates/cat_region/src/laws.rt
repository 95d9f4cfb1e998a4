// Laws of what regions admit and decide: each is the contract of a function.
ghost use Rattle.std.specs.Prelude.{◌≡◌, ◌↔◌, ◌<◌, ◌-◌, ◌++◌, ◌∷◌, [], ℕ, Bool, List, Some, IsTrue, length, take};
ghost use Rattle.cat_region.specs.declared.cut.Cut.{Cut as Cutting};
ghost use Rattle.cat_region.specs.declared.narrowing.Narrowing.{Narrowing as Narrowed};
ghost use Rattle.cat_region.specs.Points.{answer};
ghost use Rattle.cat_region.specs.Regions.{Constraints, Valuation, with_narrowing, is_cut_at, agrees, is_admitted};
ghost use Rattle.cat_region.specs.Regions.{last_narrowing, IsRegion, Admits, IsInhabited, IsDecision};
ghost use Rattle.cat_region.specs.Decided.{decided_at};
ghost use Rattle.cat_region.specs.Chosen.{point_at};

use crate::region::Region;

/// What the invariant of a region says.
pub fn regions_are_sound(region: &Region)
    ensures { IsRegion region.now }
{
    let _room = region.room();
}

/// A narrowing more admits what was admitted and agrees with it.
#[tactic(auto, using(crate::proofs::Exported::narrowing))]
pub fn narrowed_regions_admit_what_agrees()
    ensures { (region : Constraints) (n : Narrowed) (v : Valuation)
        → Admits (with_narrowing region n) v ↔ (Admits region v × IsTrue (agrees (v n.dim) n)) }
{}

/// A valuation is admitted exactly where each of its values is.
#[tactic(auto, using(crate::proofs::Exported::by_dimensions))]
pub fn valuations_are_admitted_by_dimensions()
    ensures { (region : Constraints) (v : Valuation) → IsRegion region
        → Admits region v ↔ ((i : ℕ) → i < length region.dims → IsTrue (is_admitted region i (v i))) }
{}

/// What is decided is exact: an answer where something is admitted and all of it gives that answer; none where nothing
/// is admitted, or both answers occur.
#[tactic(auto, using(crate::proofs::Exported::decisions))]
pub fn decisions_are_exact()
    ensures { (region : Constraints) (i : ℕ) (c : Cutting) → IsRegion region → IsTrue (is_cut_at region.dims i c)
        → IsDecision region i c (decided_at region i c) }
{}

/// What is decided is so for each admitted valuation.
#[tactic(auto, using(crate::proofs::Exported::answers))]
pub fn what_is_decided_is_so()
    ensures { (region : Constraints) (i : ℕ) (c : Cutting) (b : Bool) (v : Valuation) → IsRegion region
        → IsTrue (is_cut_at region.dims i c) → decided_at region i c ≡ Some b → Admits region v → answer c (v i) ≡ b }
{}

/// What is decided stays so where a narrowing leaves something admitted.
#[tactic(auto, using(crate::proofs::Exported::kept))]
pub fn narrowing_keeps_what_is_decided()
    ensures { (region : Constraints) (n : Narrowed) (i : ℕ) (c : Cutting) (b : Bool) → IsRegion region
        → IsTrue (is_cut_at region.dims n.dim n.cut) → IsTrue (is_cut_at region.dims i c)
        → IsInhabited (with_narrowing region n) → decided_at region i c ≡ Some b
        → decided_at (with_narrowing region n) i c ≡ Some b }
{}

/// The points of the dimensions together are an admitted valuation.
#[tactic(auto, using(crate::proofs::Exported::points))]
pub fn points_are_admitted()
    ensures { (region : Constraints) → IsRegion region → IsInhabited region → Admits region (point_at region) }
{}

/// The last narrowing is the one that was made last, and undoing it leaves those before it.
#[tactic(auto, using(crate::proofs::Exported::undone))]
pub fn the_last_narrowing_is_undone()
    ensures last { (ns : List Narrowed) (n : Narrowed) → last_narrowing (ns ++ n ∷ []) ≡ Some (n.dim, n.cut, n.yes) }
    ensures undone { (ns : List Narrowed) (n : Narrowed) → take (length (ns ++ n ∷ []) - 1) (ns ++ n ∷ []) ≡ ns }
{}
