// The tables of an audit.
ghost use Rattle.std.specs.Prelude.{◌≡◌, ◌<◌, IfOk, length};
ghost use Rattle.cat_scope.specs.AllForests.{AreForestsOf};
ghost use Rattle.cat_guard.specs.Tables.{TablesScope};
ghost use Rattle.cat_audit_table.specs.AuditedTables.{AreTablesOf, IsCounted};

use crate::audit_table;
use cat_depend::{audited_scopes, audited_scopes_have_what_they_call};
use cat_guard::{ScopeTables, Table};
use cat_pos::List;
use cat_scope::{Forest, Program};
use std::alloc::{AllocError, Global};

/// The table of one scope.
fn table_of(
    alloc: Global,
    program: &Program,
    forests: &[Forest],
    scope: u32,
) -> Result<Table, AllocError>
    requires counted { IsCounted program.now }
    requires forests { AreForestsOf program.now forests.now }
    requires scope { scope < length program.now.bodies }
    ensures { IfOk result (TablesScope program.now scope) }
{
    audit_table(alloc, program, &forests[scope as usize], scope)
}

/// The tables of the scopes that a scope calls, directly or not, and of itself, which is the last one.
pub fn audited_tables(
    alloc: Global,
    program: &Program,
    forests: &[Forest],
    scope: u32,
) -> Result<ScopeTables, AllocError>
    requires counted { IsCounted program.now }
    requires forests { AreForestsOf program.now forests.now }
    requires scope { scope < length program.now.bodies }
    ensures { IfOk result (AreTablesOf program.now scope) }
{
    audited_scopes_have_what_they_call(program);
    let scopes = audited_scopes(alloc, program, scope)?;
    let mut tables = List::new(alloc);
    for &number in scopes.as_slice() {
        tables.push(table_of(alloc, program, forests, number)?)?;
    }
    Ok(tables)
}
