// The default terms of a whole program.
ghost use Rattle.std.specs.Prelude.{◌≡◌, ◌<◌, length, IfOk};
ghost use Rattle.cat_pos.specs.declared.limits.TheConstants.{ENTRIES_BOUND};
ghost use Rattle.cat_scope.specs.Names.{AllHave};
ghost use Rattle.cat_calc.specs.Desugared.{KeepsOutcomes, KeepsDeciders, AreMadeOf};
ghost use Rattle.cat_scope.specs.AllForests.{AreForestsOf};

use crate::Calc;
use crate::scopes::calc_scopes;
use cat_pos::List;
use cat_scope::{Forest, Program, programs_are_well_formed};
use std::alloc::{AllocError, Global};

/// The default terms of a program, which share its declarations and expressions. It takes time in proportion to the program.
pub fn desugar(alloc: Global, program: &Program, forests: &[Forest]) -> Result<Calc, AllocError>
    requires few { AllHave (λ body. length body.defs < ENTRIES_BOUND) program.now.bodies }
    requires stand { AreForestsOf program.now forests.now }
    ensures decls { IfOk result (λ calc. calc.decls ≡ program.now.decls) }
    ensures outcomes { IfOk result (KeepsOutcomes program.now) }
    ensures deciders { IfOk result (KeepsDeciders program.now) }
    ensures made { IfOk result (λ calc. AreMadeOf program.now.bodies calc.scopes) }
{
    programs_are_well_formed(program);
    let decls = program.decls.copy()?;
    let scopes = calc_scopes(alloc, program, forests)?;
    let scope_order = List::from_slice(alloc, program.scope_order())?;
    Ok(Calc::from_parts(decls, scopes, scope_order))
}
