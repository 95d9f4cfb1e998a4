// What covered targets mean for runs.
ghost use Rattle.std.specs.Prelude.{◌≡◌, ℕ, Bool, Option, IsTrue, List, Some, slice_get};
ghost use Rattle.cat_value.specs.declared.ty.Ty.{Ty};
ghost use Rattle.cat_value.specs.declared.value.Value.{Value};
ghost use Rattle.cat_value.specs.declared.declaration.Scope.{Scope};
ghost use Rattle.cat_value.specs.Inputs.{IsWellTyped};
ghost use Rattle.cat_scope.specs.declared.defs.Body.{Body};
ghost use Rattle.cat_scope.specs.Names.{AllHave, scope_items};
ghost use Rattle.cat_scope.specs.Naming.{IsTargetAt};
ghost use Rattle.cat_scope.specs.Targets.{same_target, judge_target};
ghost use Rattle.cat_scope.specs.Calls.{Items};
ghost use Rattle.cat_scope.specs.Eval.{Env, eval};
ghost use Rattle.cat_scope.specs.Running.{scope_run};
ghost use Rattle.cat_scope.specs.Outcomes.{scope_outcome};
ghost use Rattle.cat_sound.specs.Endings.{Allowed, Ended, EndsIn, IsEnd, IsOf, AreOf, AreOutputsOf};
ghost use Rattle.cat_sound.specs.Settled.{IsClosed, IsHeldOf, StandsIn, may_be_empty};
ghost use Rattle.cat_guard.specs.declared.table.Table.{Table as TableSeen};
ghost use Rattle.cat_guard.specs.Tables.{IsTableOf};
ghost use Rattle.cat_guard.specs.TableJudging.{Covers, decided};
ghost use Rattle.cat_guard.specs.Valuations.{holds_at};
ghost use Rattle.cat_audit_sound.specs.Evaluations.{valuation_of};
ghost use Rattle.cat_audit_sound.specs.Follows.{Follows};
ghost use Rattle.cat_audit_sound.specs.Audited.{ScopesAudited, none_may_stop, IsValueOrFault};

use cat_scope::Program;

/// Where every valuation covers the targets of a scope, and of those that it calls, that may not stop, a run on a
/// well-typed input ends in a value, in a fault, or in a Conflict or a NoValue of a target that may stop; and its log
/// holds only what a valuation decides.
pub fn audited_programs_go_on(program: &Program)
    ensures { (allowed : Allowed) (within : ℕ → Bool) (tables : ℕ → TableSeen) (scope : ℕ) (input : Items)
        → IsClosed within program.now.decls program.now.bodies → ScopesAudited allowed within program.now tables
        → IsTrue (within scope) → IsWellTyped program.now.decls scope input
        → EndsIn allowed (AreOutputsOf program.now.decls (scope_items program.now.decls scope))
        (scope_run program.now scope input) }
{}

/// Where every valuation covers each target of a scope and of those that it calls, no well-typed input ends in a
/// Conflict or a NoValue.
pub fn audited_programs_have_no_gap(program: &Program)
    ensures { (within : ℕ → Bool) (tables : ℕ → TableSeen) (scope : ℕ) (input : Items)
        → IsClosed within program.now.decls program.now.bodies → ScopesAudited none_may_stop within program.now tables
        → IsTrue (within scope) → IsWellTyped program.now.decls scope input
        → IsValueOrFault (scope_outcome program.now scope input) }
{}
