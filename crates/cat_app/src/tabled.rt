// The decision tables of a scope's targets.
ghost use Rattle.std.specs.Prelude.{◌≡◌, ◌<◌, ◌≤◌, ℕ, None, IfOk, codes, length, option_map};
ghost use Rattle.cat_guard.specs.Tables.{TablesScope};
ghost use Rattle.cat_build.specs.Built.{IsBuiltOf};
ghost use Rattle.cat_app.specs.Lines.{line};
ghost use Rattle.cat_app.specs.TargetTables.{status_of_tables};
ghost use Rattle.cat_app.specs.inside.Says.{Says};
ghost use Rattle.cat_app.specs.inside.SaysOfTables.{MaySayOfTarget, SaysTables, TellsTables};

use crate::Status;
use crate::reply::Reply;
use cat_audit::tables_admit_something;
use cat_audit_table::audit_table;
use cat_build::{Built, accepted_programs_are_counted};
use cat_guard::Table;
use cat_scope::programs_are_well_formed;
use cat_table::{TableTexts, has_target, tables_text};
use cat_weave::Source;
use std::alloc::{AllocError, Global};

/// The table of a scope.
pub(crate) fn scope_table(
    alloc: Global,
    source: &Source,
    built: &Built,
    scope: u32,
) -> Result<Table, AllocError>
    requires built { IsBuiltOf source.now.pieces built.now }
    requires scope { scope < length built.now.program.decls.scopes }
    ensures { IfOk result (TablesScope built.now.program scope) }
{
    accepted_programs_are_counted();
    programs_are_well_formed(&built.program);
    let forest = built.forests.at(scope as usize);
    audit_table(alloc, &built.program, forest, scope)
}

/// The status of tables.
fn status_of_tables(spent: bool) -> Status
    ensures { result ≡ status_of_tables spent }
{
    if spent {
        Status::Unsettled
    } else {
        Status::Fine
    }
}

/// The tables of the targets of a scope that are wanted.
fn tell_tables(
    alloc: Global,
    source: &Source,
    built: &Built,
    table: &Table,
    most: u32,
    wanted: Option<&str>,
) -> Result<Reply, AllocError>
    requires tabled { (scope : ℕ) × TablesScope built.now.program scope table.now }
    requires most { 1 ≤ most }
    ensures { IfOk result (TellsTables built.now.program.decls source.now.files table.now most
        (option_map (λ name. name.now) wanted.entry)) }
{
    tables_admit_something(&built.program);
    let files = &source.files;
    let TableTexts { text, spent } = tables_text(
        alloc,
        &built.program,
        files,
        table,
        wanted,
        u64::from(most),
    )?;
    let status = status_of_tables(spent);
    Ok(Reply { status, text })
}

/// The scope has no such target.
fn no_target(alloc: Global, name: &str) -> Result<Reply, AllocError>
    ensures { IfOk result (Says Status.Usage (line (codes "no such target ") name.now)) }
{
    let text = format!(in alloc; "no such target {name}\n")?;
    Ok(Reply {
        status: Status::Usage,
        text,
    })
}

/// The tables of all targets of a scope.
pub fn all_tables(
    alloc: Global,
    source: &Source,
    built: &Built,
    scope: u32,
    most: u32,
) -> Result<Reply, AllocError>
    requires built { IsBuiltOf source.now.pieces built.now }
    requires scope { scope < length built.now.program.decls.scopes }
    requires most { 1 ≤ most }
    ensures { IfOk result (SaysTables built.now.program scope most source.now.files None) }
{
    let table = scope_table(alloc, source, built, scope)?;
    tell_tables(alloc, source, built, &table, most, None)
}

/// The table of the target of that name, or that the scope has no such target.
pub fn target_table(
    alloc: Global,
    source: &Source,
    built: &Built,
    scope: u32,
    most: u32,
    name: &str,
) -> Result<Reply, AllocError>
    requires built { IsBuiltOf source.now.pieces built.now }
    requires scope { scope < length built.now.program.decls.scopes }
    requires most { 1 ≤ most }
    ensures { IfOk result (MaySayOfTarget built.now.program scope most source.now.files name.now) }
{
    let table = scope_table(alloc, source, built, scope)?;
    if !has_target(&table, name) {
        return no_target(alloc, name);
    }
    tell_tables(alloc, source, built, &table, most, Some(name))
}
