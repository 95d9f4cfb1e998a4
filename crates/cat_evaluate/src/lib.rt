//! Evaluates scopes of the default calculus: they are lowered to code, and the machine runs it. Each has the outcome
//! that the calculus gives it.
#![tactic(auto)]

ghost use Rattle.std.specs.Prelude.{◌≡◌, Some, IfOk};
ghost use Rattle.cat_value.specs.Inputs.{IsWellTyped};
ghost use Rattle.cat_calc.specs.Calculus.{calc_outcome};

use cat_calc::Calc;
use cat_lower::lower;
use cat_machine::execute;
use cat_pool::Pool;
use cat_value::{Input, Outcome};
use std::alloc::{AllocError, Global};

/// The outcome of a scope of a calculus on a well-typed input. It costs the lowering of all scopes, and the run.
pub fn evaluate(
    alloc: Global,
    calc: &Calc,
    scope: u32,
    input: &Input,
) -> Result<Outcome, AllocError>
    requires { IsWellTyped calc.now.decls scope input.now }
    ensures { IfOk result (λ outcome. calc_outcome calc.now scope input.now ≡ Some outcome) }
{
    let code = lower(alloc, calc)?;
    let mut pool = Pool::new(alloc);
    execute(alloc, &code, scope, input, &mut pool)
}
