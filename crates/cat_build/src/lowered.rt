// The code of a program.
ghost use Rattle.std.specs.Prelude.{◌≡◌, IfOk};
ghost use Rattle.cat_calc.specs.Desugared.{KeepsOutcomes, KeepsDeciders, AreMadeOf};
ghost use Rattle.cat_machine.specs.ForPrograms.{IsCodeFor};
ghost use Rattle.cat_build.specs.Built.{IsLoweredOf};

use cat_calc::Calc;
use cat_code::Code;
use cat_lower::lower;
use cat_scope::Program;
use std::alloc::{AllocError, Global};

/// The code of a program, whose default terms these are.
pub fn code_of(alloc: Global, program: &Program, calc: &Calc) -> Result<Code, AllocError>
    requires declared { calc.now.decls ≡ program.now.decls }
    requires outcomes { KeepsOutcomes program.now calc.now }
    requires deciders { KeepsDeciders program.now calc.now }
    requires made { AreMadeOf program.now.bodies calc.now.scopes }
    ensures code { IfOk result (λ code. ∥ IsCodeFor program.now code ∥₁) }
    ensures lowered { IfOk result (IsLoweredOf program.now) }
{
    lower(alloc, calc)
}
