// The audit of a scope.
ghost use Rattle.std.specs.Prelude.{◌<◌, IfOk, length};
ghost use Rattle.cat_scope.specs.AllForests.{AreForestsOf};
ghost use Rattle.cat_machine.specs.ForPrograms.{IsCodeFor};
ghost use Rattle.cat_audit.specs.Reports.{IsReport};
ghost use Rattle.cat_audit_table.specs.AuditedTables.{AreTablesOf, IsCounted};

use crate::report::{Report, Section, Verdict};
use crate::section::section_of;
use cat_audit_table::audited_tables;
use cat_code::Code;
use cat_depend::audited_scopes_have_what_they_call;
use cat_guard::ScopeTables;
use cat_pool::Pool;
use cat_pos::List;
use cat_scope::{Forest, Program, programs_are_well_formed};
use std::alloc::{AllocError, Global};

/// The report over the tables of an audit. A table of verdicts has that of each scope that has its section.
fn report_over(
    alloc: Global,
    program: &Program,
    code: &Code,
    pool: &mut Pool,
    tables: ScopeTables,
    scope: u32,
    budget: u64,
) -> Result<Report, AllocError>
    requires code { ∥ IsCodeFor program.now code.now ∥₁ }
    requires tables { AreTablesOf program.now scope tables }
    requires budget { 0 < budget }
    ensures { IfOk result (IsReport program.now scope budget) }
{
    programs_are_well_formed(program);
    audited_scopes_have_what_they_call(program);
    let mut verdicts = vec![in alloc; Verdict::Undecided; program.bodies.len()]?;
    let mut sections = List::new(alloc);
    let mut trees = List::new(alloc);
    for table in tables.as_slice() {
        let section = section_of(
            alloc, program, code, pool, table, budget, &verdicts, &mut trees,
        )?;
        verdicts[table.scope as usize] = section.verdict;
        sections.push(section)?;
    }
    Ok(Report {
        tables,
        sections,
        trees,
    })
}

/// The audit of a scope, in which the search for a target makes at most `budget` leaves. It has the cost of those
/// searches and of a run for each leaf that isn't covered, up to the first of a target that shows a conflict or a gap.
pub fn audit(
    alloc: Global,
    program: &Program,
    forests: &[Forest],
    code: &Code,
    scope: u32,
    budget: u64,
) -> Result<Report, AllocError>
    requires counted { IsCounted program.now }
    requires forests { AreForestsOf program.now forests.now }
    requires code { ∥ IsCodeFor program.now code.now ∥₁ }
    requires scope { scope < length program.now.bodies }
    requires budget { 0 < budget }
    ensures { IfOk result (IsReport program.now scope budget) }
{
    let tables = audited_tables(alloc, program, forests, scope)?;
    let mut pool = Pool::new(alloc);
    report_over(alloc, program, code, &mut pool, tables, scope, budget)
}
