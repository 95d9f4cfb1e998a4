// What holds of every table: the contract of a function.
ghost use Rattle.std.specs.Prelude.{ℕ};
ghost use Rattle.cat_region.specs.Regions.{IsInhabited};
ghost use Rattle.cat_guard.specs.declared.table.Table.{Table as TableSeen};
ghost use Rattle.cat_guard.specs.Tables.{TablesScope};
ghost use Rattle.cat_search.specs.Searched.{everything};

use cat_scope::{Program, programs_are_well_formed};
use cat_search::terms_with_values_admit_something;

/// Before any narrowing the terms of a program's table admit something: each of them has a value.
pub fn tables_admit_something(program: &Program)
    ensures { (scope : ℕ) (table : TableSeen) → TablesScope program.now scope table
        → IsInhabited (everything table.terms) }
{
    programs_are_well_formed(program);
    terms_with_values_admit_something();
}
