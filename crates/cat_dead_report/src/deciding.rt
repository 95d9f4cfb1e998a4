// What decides where nothing can fault, and how far runs come there: each law is the contract of a function.
ghost use Rattle.std.specs.Prelude.{◌≡◌, ◌+◌, ◌∷◌, [], ℕ, true};
ghost use Rattle.cat_pos.specs.declared.pos.Pos.{Pos as PosSeen};
ghost use Rattle.cat_region.specs.Regions.{Constraints, IsInhabited, IsRegion};
ghost use Rattle.cat_scope.specs.Names.{AllHave};
ghost use Rattle.cat_guard.specs.Tables.{TablesScope};
ghost use Rattle.cat_guard.specs.Valuations.{dims_of};
ghost use Rattle.cat_audit_sound.specs.Failing.{IsOfFreeTerms};
ghost use Rattle.cat_dead.specs.Winners.{winner_in};
ghost use Rattle.cat_dead_report.specs.RunLines.{decides_in};
ghost use Rattle.cat_dead_report.specs.inside.Faultless.{IsCoveredByEach, IsFaultless, IsReached};

use cat_audit_sound::{free_terms_have_their_points, inputs_of_valuations_are_well_typed};
use cat_guard::{Table, judgings_of_regions_hold};
use cat_scope::{Program, programs_are_well_formed};

/// In the run on the input of a region that constrains inputs alone, the definition that wins there decides, where its
/// target is faultless.
pub(crate) fn winners_of_faultless_targets_decide(program: &Program, table: &Table)
    requires { TablesScope program.now table.now.scope table.now }
    ensures { (region : Constraints) (p : PosSeen) → IsRegion region → region.dims ≡ dims_of table.now.terms
        → IsInhabited region → IsOfFreeTerms table.now.terms region
        → AllHave (λ t. (index : ℕ) → IsFaultless program.now table.now.scope index t
        → winner_in table.now.atoms t region ≡ p ∷ [] → decides_in program.now table.now t p region ≡ true)
        table.now.targets }
{
    programs_are_well_formed(program);
    judgings_of_regions_hold(table);
    free_terms_have_their_points(program);
    inputs_of_valuations_are_well_typed(program);
}

/// Where each run comes to a faultless target that each valuation covers, it comes to the next item of the order too.
pub(crate) fn runs_go_on_behind_covered_targets(program: &Program, table: &Table)
    requires { TablesScope program.now table.now.scope table.now }
    ensures { (index : ℕ) → AllHave (λ t. IsFaultless program.now table.now.scope index t
        → IsCoveredByEach table.now t → IsReached program.now table.now.scope (index + 1)) table.now.targets }
{
    programs_are_well_formed(program);
}
