// Certificates for scopes of programs.
ghost use Rattle.std.specs.Prelude.{◌<◌, ◌≤◌, ◌^◌, All, IfOk, IfErr, length, string_bytes};
ghost use Rattle.std.specs.Option.{option_map};
ghost use Rattle.cat_scope.specs.AllForests.{AreForestsOf};
ghost use Rattle.cat_guard.specs.declared.table.Table.{Table as Tabled};
ghost use Rattle.cat_audit_sound.specs.Audited.{HasNoGap};
ghost use Rattle.cat_audit_table.specs.AuditedTables.{IsCounted};
ghost use Rattle.cat_cert.specs.ScopeTables.{HasScopeCause, IsOverScope};

use crate::scope_laws::closed_tables_leave_no_gap;
use crate::{CertRefusal, check_over};
use cat_audit_table::audited_tables;
use cat_guard::Table;
use cat_scope::{Forest, Program};
use std::alloc::Global;

/// The atoms of each table are numbered by a `usize`.
fn count_atoms(tables: &[Table])
    ensures { All (λ (table : Tabled). length table.atoms ≤ 2 ^ 64) tables.now }
{
    for table in tables {
        let _count = table.atoms.len();
    }
}

/// Whether a text is a certificate for a scope, with the text of version 2 where it is of version 1. It costs the
/// tables of the scope and of those that it calls, and the check of the text over them.
pub fn certified(
    alloc: Global,
    program: &Program,
    forests: &[Forest],
    scope: u32,
    bytes: &[u8],
) -> Result<Option<String>, CertRefusal>
    requires counted { IsCounted program.now }
    requires forests { AreForestsOf program.now forests.now }
    requires scope { scope < length program.now.bodies }
    ensures no_gap { IfOk result (λ o. HasNoGap program.now scope) }
    ensures over { IfOk result (λ o. IsOverScope program.now scope bytes.now (option_map string_bytes o)) }
    ensures cause { IfErr result (HasScopeCause program.now scope bytes.now) }
{
    closed_tables_leave_no_gap(program);
    let tables = audited_tables(alloc, program, forests, scope)?;
    let tables = tables.as_slice();
    count_atoms(tables);
    check_over(alloc, tables, bytes)
}
