// What keys tell.
ghost use Rattle.std.specs.Prelude.{◌≡◌, ◌↔◌, IsTrue};
ghost use Rattle.cat_guard.specs.Questions.{Question};
ghost use Rattle.cat_guard.specs.Terms.{same_term};
ghost use Rattle.cat_audit_keys.specs.Keys.{term_key};

/// Two terms have one key exactly where they are one: of one dimension, with expressions that agree but for positions.
#[tactic(auto, using(crate::proofs::TermLaws::keys_tell))]
pub fn terms_have_one_key_where_they_are_one()
    ensures { (q : Question) (r : Question) → IsTrue (same_term q r) ↔ (term_key q ≡ term_key r) }
{}
