// What a complete report says: each law is the contract of a function.
ghost use Rattle.std.specs.Prelude.{◌≡◌, ◌<◌, ℕ, IsTrue, length};
ghost use Rattle.cat_scope.specs.Names.{AllHave};
ghost use Rattle.cat_json.specs.Names.{names_are_distinct};
ghost use Rattle.cat_audit.specs.declared.report.Report.{Report as ReportSeen};
ghost use Rattle.cat_audit.specs.Complete.{AreClosedTrees, HasNoGapWhereComplete, targets_in};
ghost use Rattle.cat_audit_sound.specs.Audited.{HasNoGap};
ghost use Rattle.cat_audit.specs.Reports.{IsReport, last_verdict};
ghost use Rattle.cat_audit.specs.RunsAgain.{AreReadBack, RunAgain};

use crate::report::Verdict;
use cat_audit_sound::audited_programs_have_no_gap;
use cat_depend::{audited_scopes_end_with_the_audited_one, audited_scopes_have_what_they_call};
use cat_guard::closed_trees_cover_each_valuation;
use cat_scope::Program;

/// Of a scope whose section is Complete no well-typed input ends in a Conflict or a NoValue.
pub fn complete_scopes_leave_no_gap(program: &Program)
    ensures { (scope : ℕ) (budget : ℕ) (report : ReportSeen) → IsReport program.now scope budget report
        → AllHave (HasNoGapWhereComplete program.now) report.sections }
{
    audited_scopes_have_what_they_call(program);
    closed_trees_cover_each_valuation();
    audited_programs_have_no_gap(program);
}

/// Where the last verdict is Complete, each is, and no well-typed input of the audited scope ends in a Conflict or a
/// NoValue.
pub fn complete_audits_leave_no_gap(program: &Program)
    ensures complete { (scope : ℕ) (budget : ℕ) (report : ReportSeen) → scope < length program.now.bodies
        → IsReport program.now scope budget report → last_verdict report.sections ≡ Verdict.Complete
        → AllHave (λ s. s.verdict ≡ Verdict.Complete) report.sections }
    ensures no_gap { (scope : ℕ) (budget : ℕ) (report : ReportSeen) → scope < length program.now.bodies
        → IsReport program.now scope budget report → last_verdict report.sections ≡ Verdict.Complete
        → HasNoGap program.now scope }
{
    audited_scopes_have_what_they_call(program);
    audited_scopes_end_with_the_audited_one(program);
    closed_trees_cover_each_valuation();
    audited_programs_have_no_gap(program);
}

/// Where the last verdict is Complete, the trees of a report are closed ones, one for each target of its tables.
pub fn complete_audits_have_closed_trees(program: &Program)
    ensures { (scope : ℕ) (budget : ℕ) (report : ReportSeen) → scope < length program.now.bodies
        → IsReport program.now scope budget report → last_verdict report.sections ≡ Verdict.Complete
        → AreClosedTrees budget (targets_in report.tables) report.trees }
{
    complete_audits_leave_no_gap(program);
}

/// The sections of a report are of scopes of the program.
pub fn reports_are_of_declared_scopes(program: &Program)
    ensures { (scope : ℕ) (budget : ℕ) (report : ReportSeen) → IsReport program.now scope budget report
        → AllHave (λ s. s.scope < length program.now.decls.scopes) report.sections }
{}

/// The text of each input in a report is read as that input, which is well typed, and on which the scope comes to the
/// outcome that stands beside it, where each name stands for one thing and each text is read back.
pub fn inputs_in_reports_run_again(program: &Program)
    ensures { (scope : ℕ) (budget : ℕ) (report : ReportSeen) → IsTrue (names_are_distinct program.now.decls)
        → IsReport program.now scope budget report → AllHave (AreReadBack program.now.decls) report.sections
        → AllHave (RunAgain program.now) report.sections }
{}
