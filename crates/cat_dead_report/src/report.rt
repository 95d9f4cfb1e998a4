// The report on the definitions of a scope.
ghost use Rattle.std.specs.Prelude.{◌≡◌, ◌<◌, IfOk, length, string_bytes};
ghost use Rattle.cat_scope.specs.AllForests.{AreForestsOf};
ghost use Rattle.cat_guard.specs.Tables.{TablesScope};
ghost use Rattle.cat_cert.specs.Texts.{text_of};
ghost use Rattle.cat_machine.specs.ForPrograms.{IsCodeFor};
ghost use Rattle.cat_audit_table.specs.AuditedTables.{IsCounted};
ghost use Rattle.cat_dead_report.specs.DeadReports as reports;
ghost use Rattle.cat_dead_report.specs.DeadReports.{AreDeadLines, IsDeadReport};

use crate::certificate::{are_whole, push_certificate};
use crate::deciding::runs_go_on_behind_covered_targets;
use crate::faultless::{is_faultless, past_given, past_target};
use crate::line::{ReportLines, TargetLines};
use crate::scene::TargetScene;
use crate::status::status_of;
use crate::target::target_lines;
use crate::text::push_targets;
use cat_audit_table::audit_table;
use cat_code::Code;
use cat_guard::{Table, whole_region};
use cat_pool::Pool;
use cat_pos::{Files, List};
use cat_scope::{Forest, Program};
use std::alloc::{AllocError, Global};

/// The whole reply, and the status with which it ends: 6 where a definition never decides, else 7 where it isn't known
/// of one whether it does, else 0.
#[derive(Debug, Drop)]
pub struct DeadReport {
    pub text: String,
    pub status: u8,
}

/// The lines of a table's targets.
fn report_lines(
    alloc: Global,
    program: &Program,
    code: &Code,
    table: &Table,
    budget: u64,
) -> Result<ReportLines, AllocError>
    requires tabled { TablesScope program.now table.now.scope table.now }
    requires code { ∥ IsCodeFor program.now code.now ∥₁ }
    requires budget { 0 < budget }
    ensures { IfOk result (AreDeadLines program.now table.now budget table.now.targets) }
{
    runs_go_on_behind_covered_targets(program, table);
    let mut pool = Pool::new(alloc);
    let mut lines = List::new(alloc);
    let mut whole = whole_region(alloc, table, table.atoms.len())?;
    // Each run comes to this index of the order.
    let mut front = 0;
    for (number, target) in table.targets.as_slice().iter().enumerate() {
        let Ok(number) = u32::try_from(number) else {
            return Err(AllocError);
        };
        front = past_given(program, table.scope, front);
        let faultless = is_faultless(program, table.scope, front, target);
        let here = TargetScene {
            alloc,
            program,
            code,
            table,
            number,
            target,
            faultless,
        };
        let (found, back, covered) = target_lines(&here, &mut pool, budget, whole)?;
        whole = back;
        front = past_target(program, table.scope, front, faultless, covered);
        lines.push(found)?;
    }
    Ok(lines)
}

/// The text of a report.
fn report_text(
    alloc: Global,
    program: &Program,
    files: &Files,
    table: &Table,
    budget: u64,
    lines: &[TargetLines],
) -> Result<String, AllocError>
    requires tabled { TablesScope program.now table.now.scope table.now }
    requires lines { AreDeadLines program.now table.now budget table.now.targets lines.now }
    ensures { IfOk result (λ text. string_bytes text
        ≡ text_of (reports.report_lines program.now.decls files.now budget table.now lines.now)) }
{
    let name = table.name.as_str();
    let mut text = format!(in alloc; "dead {name}\n")?;
    push_targets(
        alloc,
        &mut text,
        table,
        lines,
        program.decls(),
        files,
        budget,
    )?;
    if !are_whole(lines) {
        return Ok(text);
    }
    push_certificate(&mut text, table, lines)?;
    Ok(text)
}

/// What is said of each definition of a scope: whether it decides in a run, by an input on which it does, or never; and
/// where all trees are whole, the certificate of those that never do. The search for a target makes at most `budget`
/// leaves. It has the cost of those searches, and for each place of definitions of the runs on leaves where one wins up
/// to the first in which it decides. On leaves that constrain inputs alone it runs none for a target to which each run
/// comes and none of whose definitions can fault.
pub fn dead_report(
    alloc: Global,
    program: &Program,
    forests: &[Forest],
    code: &Code,
    files: &Files,
    scope: u32,
    budget: u64,
) -> Result<DeadReport, AllocError>
    requires counted { IsCounted program.now }
    requires forests { AreForestsOf program.now forests.now }
    requires code { ∥ IsCodeFor program.now code.now ∥₁ }
    requires scope { scope < length program.now.bodies }
    requires budget { 0 < budget }
    ensures { IfOk result (IsDeadReport program.now files.now scope budget) }
{
    let table = audit_table(alloc, program, &forests[scope as usize], scope)?;
    let lines = report_lines(alloc, program, code, &table, budget)?;
    let lines = lines.as_slice();
    let text = report_text(alloc, program, files, &table, budget, lines)?;
    let status = status_of(lines);
    Ok(DeadReport { text, status })
}
