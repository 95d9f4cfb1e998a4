// What is said of the definitions of a scope: on what each decides, and by a certificate which of them never do.
ghost use Rattle.std.specs.Prelude.{◌≡◌, ◌<◌, ◌≤◌, IfOk, length, string_bytes};
ghost use Rattle.cat_build.specs.Built.{IsBuiltOf};
ghost use Rattle.cat_app.specs.Deads.{HasDeadReport, status_of_dead};
ghost use Rattle.cat_app.specs.inside.SaysOfDead.{SaysDead, SaysDeadReport};

use crate::Status;
use crate::checked::refuse_certificate;
use crate::never::say_never;
use crate::reply::Reply;
use crate::tabled::scope_table;
use cat_build::{Built, accepted_programs_are_counted};
use cat_dead::check_dead;
use cat_dead_report::{DeadReport, dead_report, plain_scopes_have_decided_lines};
use cat_scope::programs_are_well_formed;
use cat_weave::Source;
use std::alloc::{AllocError, Global};

/// The status of a report.
fn status_of_dead(number: u8) -> Status
    ensures { result ≡ status_of_dead number }
{
    if number == 6 {
        return Status::Found;
    }
    if number == 7 {
        return Status::Unsettled;
    }
    Status::Fine
}

/// The report on the definitions of a scope.
fn report_of(
    alloc: Global,
    source: &Source,
    built: &Built,
    scope: u32,
    most: u32,
) -> Result<DeadReport, AllocError>
    requires built { IsBuiltOf source.now.pieces built.now }
    requires scope { scope < length built.now.program.decls.scopes }
    requires most { 1 ≤ most }
    ensures { IfOk result (HasDeadReport built.now.program source.now.files scope most) }
{
    accepted_programs_are_counted();
    programs_are_well_formed(&built.program);
    plain_scopes_have_decided_lines(&built.program);
    let forests = built.forests.as_slice();
    dead_report(
        alloc,
        &built.program,
        forests,
        &built.code,
        &source.files,
        scope,
        u64::from(most),
    )
}

/// The reply that a report is.
fn reply_of(report: DeadReport) -> Reply
    ensures status { result.status ≡ status_of_dead report.status }
    ensures text { string_bytes result.text ≡ string_bytes report.text }
{
    let DeadReport { text, status } = report;
    Reply {
        status: status_of_dead(status),
        text,
    }
}

/// What a report says of each definition of the scope.
pub fn reported(
    alloc: Global,
    source: &Source,
    built: &Built,
    scope: u32,
    most: u32,
) -> Result<Reply, AllocError>
    requires built { IsBuiltOf source.now.pieces built.now }
    requires scope { scope < length built.now.program.decls.scopes }
    requires most { 1 ≤ most }
    ensures { IfOk result (SaysDeadReport built.now.program scope most source.now.files) }
{
    let report = report_of(alloc, source, built, scope, most)?;
    Ok(reply_of(report))
}

/// What a check of the bytes says of the definitions of the scope.
pub fn dead_checked(
    alloc: Global,
    source: &Source,
    built: &Built,
    scope: u32,
    bytes: &[u8],
) -> Result<Reply, AllocError>
    requires built { IsBuiltOf source.now.pieces built.now }
    requires scope { scope < length built.now.program.decls.scopes }
    ensures { IfOk result (SaysDead built.now.program scope source.now.files bytes.now) }
{
    let table = scope_table(alloc, source, built, scope)?;
    match check_dead(alloc, &built.program, &table, bytes) {
        Ok(dead) => say_never(alloc, &source.files, &table, dead.as_slice()),
        Err(why) => refuse_certificate(alloc, why),
    }
}
