// What the input of a region shows.
ghost use Rattle.std.specs.Prelude.{◌≡◌, ℕ, List, Some, slice_get};
ghost use Rattle.cat_value.specs.declared.value.Value.{Value};
ghost use Rattle.cat_region.specs.Chosen.{point_at};
ghost use Rattle.cat_region.specs.Regions.{Constraints, IsRegion, IsInhabited};
ghost use Rattle.cat_scope.specs.Eval.{Env, eval};
ghost use Rattle.cat_guard.specs.declared.table.Table.{Table as TableSeen};
ghost use Rattle.cat_guard.specs.declared.table.Term.{Term as TermSeen};
ghost use Rattle.cat_guard.specs.Tables.{TablesScope};
ghost use Rattle.cat_guard.specs.Valuations.{dims_of};
ghost use Rattle.cat_audit_sound.specs.PointInputs.{input_at};
ghost use Rattle.cat_audit_sound.specs.Shown.{AreGiven, IsFree, IsSeenAs};

use cat_scope::{Program, programs_are_well_formed};
use cat_value::declarations_are_sound;

/// Where the input of a region is given, each free term of the table evaluates to a value in which cuts see the term's
/// point of the region.
pub fn free_terms_have_their_points(program: &Program)
    ensures { (scope : ℕ) (table : TableSeen) (region : Constraints) (env : Env) (arguments : List Value) (i : ℕ)
        (term : TermSeen) → TablesScope program.now scope table → IsRegion region
        → region.dims ≡ dims_of table.terms → IsInhabited region
        → AreGiven env (input_at program.now.decls table (point_at region))
        → slice_get table.terms i ≡ Some term → IsFree term
        → ∥ IsSeenAs (eval env term.expr arguments).end (point_at region i) ∥₁ }
{
    programs_are_well_formed(program);
    declarations_are_sound(program.decls());
}
