// What holds of every calculus.
ghost use Rattle.std.specs.Prelude.{ℕ};
ghost use Rattle.cat_value.specs.Inputs.{IsWellTyped};
ghost use Rattle.cat_scope.specs.Names.{scope_items};
ghost use Rattle.cat_scope.specs.Calls.{Items};
ghost use Rattle.cat_sound.specs.Endings.{IsOutcomeOf};
ghost use Rattle.cat_calc.specs.Calculus.{calc_outcome};

use crate::Calc;

/// On each well-typed input a scope of a calculus has an outcome, and where it is a value each output has its type.
#[tactic(auto, using(crate::proofs::CalcTypes::calculi_end))]
pub fn calculi_go_on(calc: &Calc)
    ensures { (scope : ℕ) (input : Items) → IsWellTyped calc.now.decls scope input
        → IsOutcomeOf calc.now.decls (scope_items calc.now.decls scope) (calc_outcome calc.now scope input) }
{}
