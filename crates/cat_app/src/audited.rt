// An audit of a scope: its report, and where it is complete, the certificate.
ghost use Rattle.std.specs.Prelude.{◌≡◌, ◌<◌, ◌≤◌, ℕ, IfOk, length, max, string_bytes};
ghost use Rattle.cat_scope.specs.Names.{AllHave};
ghost use Rattle.cat_build.specs.Built.{IsBuiltOf};
ghost use Rattle.cat_audit.specs.Reports.{IsReport, last_verdict};
ghost use Rattle.cat_audit.specs.ReportTexts.{report_text};
ghost use Rattle.cat_audit.specs.RunsAgain.{RunAgain};
ghost use Rattle.cat_app.specs.Audits.{HasReport, certificate_of, status_at};
ghost use Rattle.cat_app.specs.inside.Says.{HasClosedTrees, SaysReport};

use crate::Status;
use crate::reply::Reply;
use cat_audit::{
    Report, Section, Verdict, audit, complete_audits_have_closed_trees,
    complete_audits_leave_no_gap, complete_scopes_leave_no_gap, inputs_in_reports_run_again,
    plain_scopes_are_decided, report_text, reports_are_of_declared_scopes,
};
use cat_build::{Built, accepted_programs_are_counted, accepted_programs_have_distinct_names};
use cat_cert::write_cert;
use cat_scope::programs_are_well_formed;
use cat_weave::Source;
use std::alloc::{AllocError, Global};

/// The most leaves that an audit, a table or a report on definitions makes of a target: the number of cases, and one at
/// least.
pub fn most_of(cases: u32) -> u32
    ensures most { result ≡ max cases 1 }
    ensures some { 1 ≤ result }
{
    if cases == 0 { 1 } else { cases }
}

/// The last verdict of sections.
pub(crate) fn last_verdict(sections: &[Section]) -> Verdict
    ensures { result ≡ last_verdict sections.now }
{
    let mut last = Verdict::Undecided;
    for section in sections {
        last = section.verdict;
    }
    last
}

/// The status of a verdict.
fn status_at(verdict: Verdict) -> Status
    ensures { result ≡ status_at verdict }
{
    match verdict {
        Verdict::Found => Status::Found,
        Verdict::Masked | Verdict::Undecided => Status::Unsettled,
        Verdict::Complete => Status::Fine,
    }
}

/// The report of a scope.
pub(crate) fn report_of(
    alloc: Global,
    source: &Source,
    built: &Built,
    scope: u32,
    most: u32,
) -> Result<Report, AllocError>
    requires built { IsBuiltOf source.now.pieces built.now }
    requires scope { scope < length built.now.program.decls.scopes }
    requires most { 1 ≤ most }
    ensures { IfOk result (HasReport built.now.program scope most) }
{
    accepted_programs_are_counted();
    programs_are_well_formed(&built.program);
    complete_scopes_leave_no_gap(&built.program);
    complete_audits_leave_no_gap(&built.program);
    complete_audits_have_closed_trees(&built.program);
    plain_scopes_are_decided(&built.program);
    let forests = built.forests.as_slice();
    audit(
        alloc,
        &built.program,
        forests,
        &built.code,
        scope,
        u64::from(most),
    )
}

/// The certificate of a report whose last verdict is this one, empty where that isn't Complete.
fn certificate_of(alloc: Global, report: &Report, verdict: Verdict) -> Result<String, AllocError>
    requires { HasClosedTrees verdict report.now }
    ensures { IfOk result (λ text. string_bytes text ≡ certificate_of verdict report.now.tables report.now.trees) }
{
    match verdict {
        Verdict::Complete => {
            write_cert(alloc, report.tables.as_slice(), report.trees.as_slice())
        }
        Verdict::Found | Verdict::Masked | Verdict::Undecided => Ok(String::new(alloc)),
    }
}

/// The text of a report. What it prints of an input is read as that input.
fn text_of(
    alloc: Global,
    source: &Source,
    built: &Built,
    report: &Report,
    most: u32,
) -> Result<String, AllocError>
    requires built { IsBuiltOf source.now.pieces built.now }
    requires report { (scope : ℕ) × IsReport built.now.program scope most report.now }
    ensures text { IfOk result (λ text. string_bytes text
        ≡ report_text built.now.program.decls source.now.files most report.now.sections) }
    ensures again { IfOk result (λ text. AllHave (RunAgain built.now.program) report.now.sections) }
{
    accepted_programs_have_distinct_names();
    reports_are_of_declared_scopes(&built.program);
    inputs_in_reports_run_again(&built.program);
    let decls = built.program.decls();
    let sections = report.sections.as_slice();
    report_text(alloc, sections, decls, &source.files, u64::from(most))
}

/// What an audit of the scope says.
pub fn audited(
    alloc: Global,
    source: &Source,
    built: &Built,
    scope: u32,
    most: u32,
) -> Result<Reply, AllocError>
    requires built { IsBuiltOf source.now.pieces built.now }
    requires scope { scope < length built.now.program.decls.scopes }
    requires most { 1 ≤ most }
    ensures { IfOk result (SaysReport built.now.program scope most source.now.files) }
{
    let report = report_of(alloc, source, built, scope, most)?;
    let mut text = text_of(alloc, source, built, &report, most)?;
    let verdict = last_verdict(report.sections.as_slice());
    let certificate = certificate_of(alloc, &report, verdict)?;
    text.push_str(certificate.as_str())?;
    let status = status_at(verdict);
    Ok(Reply { status, text })
}
