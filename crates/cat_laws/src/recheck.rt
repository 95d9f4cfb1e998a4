// What a check says of what an audit or a check wrote.
ghost use Rattle.std.specs.Prelude.{◌≡◌, ◌<◌, ◌≤◌, ◌^◌, ℕ, List, Some, None, length};
ghost use Rattle.cat_walk.specs.Sizes.{most_leaves};
ghost use Rattle.cat_audit.specs.declared.report.Report.{Report as ReportSeen};
ghost use Rattle.cat_audit.specs.declared.report.Verdict.TheVariants.{Complete};
ghost use Rattle.cat_audit.specs.Reports.{IsReport, last_verdict};
ghost use Rattle.cat_cert.specs.ScopeTables.{IsOverScope};
ghost use Rattle.cat_laws.specs.Unbroken.{AreUnbroken};
ghost use Rattle.cat_laws.specs.Rechecks.{IsAnsweredYes, written_text};

use cat_audit::{complete_audits_have_closed_trees, complete_audits_leave_no_gap};
use cat_cert::{
    audited_scopes_have_one_list_of_tables, certified_scopes_are_not_refused,
    shared_trees_are_certificates, what_is_written_over_is_certified_again,
    written_certificates_are_read,
};
use cat_scope::Program;

/// What an audit writes of a complete scope is a certificate for the scope, behind the lines of the report. It is of
/// version 2.
pub fn what_an_audit_writes_is_certified(program: &Program)
    ensures { (scope : ℕ) (most : ℕ) (files : List (List ℕ)) (report : ReportSeen)
        → AreUnbroken program.now.decls.scopes → scope < length program.now.bodies → most ≤ most_leaves
        → IsReport program.now scope most report → last_verdict report.sections ≡ Complete
        → IsOverScope program.now scope (written_text program.now files most report) None }
{
    complete_audits_leave_no_gap(program);
    complete_audits_have_closed_trees(program);
    shared_trees_are_certificates();
    written_certificates_are_read();
}

/// What is written over of a certificate for a scope is a certificate for the scope, of version 2.
pub fn what_is_written_over_is_certified(program: &Program)
    ensures { (scope : ℕ) (bytes : List ℕ) (text : List ℕ) → AreUnbroken program.now.decls.scopes
        → IsOverScope program.now scope bytes (Some text) → IsOverScope program.now scope text None }
{
    what_is_written_over_is_certified_again(program);
}

/// A certificate of version 2 for a scope is answered Yes alone: no refusal has a cause but want of memory, and nothing
/// is written over.
pub fn certificates_of_version_2_are_answered_yes(program: &Program)
    ensures { (scope : ℕ) (bytes : List ℕ) → length bytes < 2 ^ 64 → IsOverScope program.now scope bytes None
        → IsAnsweredYes program.now scope bytes }
{
    audited_scopes_have_one_list_of_tables(program);
    certified_scopes_are_not_refused(program);
}
