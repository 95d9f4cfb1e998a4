// What runs that end in a value tell of their targets, and how regions of free terms end.
ghost use Rattle.std.specs.Prelude.{◌≡◌, ℕ, Some, None, List, IsTrue, false};
ghost use Rattle.cat_value.specs.declared.value.Value.{Value};
ghost use Rattle.cat_value.specs.declared.outcome.Outcome.TheVariants as outcome;
ghost use Rattle.cat_value.specs.Inputs.{IsWellTyped};
ghost use Rattle.cat_region.specs.Chosen.{point_at};
ghost use Rattle.cat_region.specs.Regions.{Constraints, Valuation, IsRegion, IsValuation, IsInhabited, Admits};
ghost use Rattle.cat_scope.specs.Calls.{Items};
ghost use Rattle.cat_scope.specs.Names.{AllHave};
ghost use Rattle.cat_scope.specs.Outcomes.{scope_outcome};
ghost use Rattle.cat_scope.specs.Running.{entry_at};
ghost use Rattle.cat_guard.specs.declared.table.Table.{Table as TableSeen};
ghost use Rattle.cat_guard.specs.Judged.{judged_in};
ghost use Rattle.cat_guard.specs.TableJudging.{Covers};
ghost use Rattle.cat_guard.specs.Tables.{TablesScope};
ghost use Rattle.cat_guard.specs.Valuations.{dims_of, holds_at};
ghost use Rattle.cat_guard.specs.Judgements.{is_bad};
ghost use Rattle.cat_audit_sound.specs.PointInputs.{input_at};
ghost use Rattle.cat_audit_sound.specs.Failing.{IsAlikeAtFree, IsOfFreeTerms, Shows, HasNoValue};

use crate::{free_terms_have_their_points, guards_tell};
use cat_audit_keys::terms_have_one_key_where_they_are_one;
use cat_guard::{Table, bad_regions_cover_nothing};
use cat_scope::{Program, programs_are_well_formed};
use cat_sound::programs_go_on;
use cat_value::declarations_are_sound;

/// The input that a valuation's points are is well typed, whether a region has them or not.
pub fn inputs_of_valuations_are_well_typed(program: &Program)
    ensures { (scope : ℕ) (table : TableSeen) (v : Valuation) → TablesScope program.now scope table
        → IsValuation (dims_of table.terms) v
        → IsWellTyped program.now.decls scope (input_at program.now.decls table v) }
{
    declarations_are_sound(program.decls());
}

/// A run that ends in a value has covered each target of its scope that is no function and whose item isn't given, a
/// variable or an input or a context of a called scope: at a valuation that has at free terms what the input shows.
pub fn values_come_of_covered_targets(program: &Program, table: &Table)
    ensures { (scope : ℕ) (input : Items) (shown : Valuation) (outputs : List Value)
        → TablesScope program.now scope table.now → IsWellTyped program.now.decls scope input
        → IsValuation (dims_of table.now.terms) shown → Shows table.now.terms input shown
        → scope_outcome program.now scope input ≡ Some (outcome.Value outputs)
        → AllHave (λ t. t.function ≡ false → entry_at t.target.item input ≡ None
        → ∥ ((v : Valuation) × IsValuation (dims_of table.now.terms) v × IsAlikeAtFree table.now.terms v shown
        × Covers t (holds_at table.now.atoms v)) ∥₁) table.now.targets }
{
    programs_are_well_formed(program);
    guards_tell();
    terms_have_one_key_where_they_are_one();
}

/// A run ends in a Conflict, a NoValue or a fault where a target that is no function isn't covered, on each input that
/// shows a valuation and doesn't give the target's item: where no valuation that is alike at free terms covers it, and
/// so where a region of free terms alone that admits this one is judged a Conflict, or Empty where that isn't allowed.
/// The input of such a region's points is one.
pub fn bad_regions_of_free_terms_fail(program: &Program, table: &Table)
    ensures uncovered { (scope : ℕ) (input : Items) (shown : Valuation)
        → TablesScope program.now scope table.now → IsWellTyped program.now.decls scope input
        → IsValuation (dims_of table.now.terms) shown → Shows table.now.terms input shown
        → AllHave (λ t. t.function ≡ false → entry_at t.target.item input ≡ None
        → ((v : Valuation) → IsValuation (dims_of table.now.terms) v → IsAlikeAtFree table.now.terms v shown
        → ¬ Covers t (holds_at table.now.atoms v)) → HasNoValue (scope_outcome program.now scope input))
        table.now.targets }
    ensures shown { (scope : ℕ) (input : Items) (region : Constraints) (shown : Valuation)
        → TablesScope program.now scope table.now → IsWellTyped program.now.decls scope input → IsRegion region
        → region.dims ≡ dims_of table.now.terms → IsOfFreeTerms table.now.terms region → Admits region shown
        → Shows table.now.terms input shown
        → AllHave (λ t. t.function ≡ false → entry_at t.target.item input ≡ None
        → IsTrue (is_bad t.may_be_empty (judged_in table.now.atoms region t))
        → HasNoValue (scope_outcome program.now scope input)) table.now.targets }
    ensures points { (scope : ℕ) (region : Constraints)
        → TablesScope program.now scope table.now → IsRegion region
        → region.dims ≡ dims_of table.now.terms → IsOfFreeTerms table.now.terms region → IsInhabited region
        → AllHave (λ t. t.function ≡ false → IsTrue (is_bad t.may_be_empty (judged_in table.now.atoms region t))
        → HasNoValue (scope_outcome program.now scope (input_at program.now.decls table.now (point_at region))))
        table.now.targets }
{
    values_come_of_covered_targets(program, table);
    bad_regions_cover_nothing(table);
    free_terms_have_their_points(program);
    inputs_of_valuations_are_well_typed(program);
    programs_go_on(program);
}
