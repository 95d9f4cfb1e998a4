// How runs of valid code end.
ghost use Rattle.std.specs.Prelude.{ℕ, List};
ghost use Rattle.cat_value.specs.Inputs.{IsWellTyped};
ghost use Rattle.cat_scope.specs.Calls.{Items};
ghost use Rattle.cat_code.specs.declared.instr.Instr.{Instr};
ghost use Rattle.cat_code.specs.declared.code.Tables.{Tables};
ghost use Rattle.cat_code.specs.Valid.{IsValid};
ghost use Rattle.cat_code_sound.specs.Ending.{RunsToAnEnd};

use cat_order::{a_cycle_leaves_no_order, the_order_is_computed};

/// Valid and tame code runs to an end on each well-typed input of each scope. The run is never stuck, and the code has
/// no other one.
pub fn valid_code_runs_to_an_end()
    ensures { (tables : Tables) (code : List Instr) → IsValid tables code → (scope : ℕ) (input : Items)
        → IsWellTyped tables.decls scope input → RunsToAnEnd tables code scope input }
{
    the_order_is_computed();
    a_cycle_leaves_no_order();
}
