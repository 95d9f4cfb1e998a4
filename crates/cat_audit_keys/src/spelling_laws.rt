// What the keys of atoms tell.
ghost use Rattle.std.specs.Prelude.{◌≡◌, ◌↔◌, IsTrue};
ghost use Rattle.cat_region.specs.declared.cut.Cut.{Cut};
ghost use Rattle.cat_guard.specs.Terms.{same_cut};
ghost use Rattle.cat_audit_keys.specs.Atoms.{cut_numbers};

/// Two cuts have the same numbers exactly where they are one.
#[tactic(auto, using(crate::proofs::CutLaws::numbers_tell))]
pub fn cuts_have_the_same_numbers_where_they_are_one()
    ensures { (c : Cut) (d : Cut) → IsTrue (same_cut c d) ↔ (cut_numbers c ≡ cut_numbers d) }
{}
