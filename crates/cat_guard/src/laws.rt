// What holds of formulas and of judging: each law is the contract of a function.
ghost use Rattle.std.specs.Prelude.{◌≡◌, ◌↔◌, ℕ, Bool, Option, Some};
ghost use Rattle.cat_scope.specs.Names.{AllHave};
ghost use Rattle.cat_guard.specs.TableJudging.{decided};
ghost use Rattle.cat_guard.specs.Verdicts.{Stands, verdict_of};
ghost use Rattle.cat_guard.specs.Formulas.{Formula, IsSo, IsKept, known, truth, of_one, of_two, of_three};

use crate::Table;

/// A connective is known exactly where its known parts decide it, whatever the unknown ones are.
#[tactic(auto, using(crate::proofs::FormulaLaws::decided_by_parts))]
pub fn connectives_are_known_by_their_parts()
    ensures one { (f : Bool → Bool) (x : Option Bool) (b : Bool)
        → (of_one f x ≡ Some b) ↔ ((p : Bool) → IsSo x p → f p ≡ b) }
    ensures two { (f : Bool → Bool → Bool) (x : Option Bool) (y : Option Bool) (b : Bool)
        → (of_two f x y ≡ Some b) ↔ ((p : Bool) (q : Bool) → IsSo x p → IsSo y q → f p q ≡ b) }
    ensures three { (f : Bool → Bool → Bool → Bool) (x : Option Bool) (y : Option Bool) (z : Option Bool) (b : Bool)
        → (of_three f x y z ≡ Some b)
        ↔ ((p : Bool) (q : Bool) (r : Bool) → IsSo x p → IsSo y q → IsSo z r → f p q r ≡ b) }
{}

/// What is known of a formula is so.
#[tactic(auto, using(crate::proofs::FormulaLaws::known_so))]
pub fn known_formulas_hold()
    ensures { (answers : ℕ → Option Bool) (holds : ℕ → Bool) → ((a : ℕ) → IsSo (answers a) (holds a))
        → (f : Formula ℕ) → IsSo (known answers f) (truth holds f) }
{}

/// What is known of a formula stays known where more is.
#[tactic(auto, using(crate::proofs::FormulaLaws::known_kept))]
pub fn more_answers_keep_what_is_known()
    ensures { (answers : ℕ → Option Bool) (more : ℕ → Option Bool) → ((a : ℕ) → IsKept (answers a) (more a))
        → (f : Formula ℕ) → IsKept (known answers f) (known more f) }
{}

/// What is known of the judging of a target is so: Held by the same definition, Empty, or a Conflict of this very
/// target.
pub fn known_judgings_hold(table: &Table)
    ensures { AllHave (λ t. (answers : ℕ → Option Bool) (holds : ℕ → Bool) → ((a : ℕ) → IsSo (answers a) (holds a))
        → Stands t.target t.defs (verdict_of t answers) (decided t holds).end) table.now.targets }
{}
