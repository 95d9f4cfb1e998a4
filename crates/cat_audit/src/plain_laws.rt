// What an audit says of a plain scope: the law is the contract of a function.
ghost use Rattle.std.specs.Prelude.{ℕ};
ghost use Rattle.cat_audit.specs.declared.report.Report.{Report as ReportSeen};
ghost use Rattle.cat_audit.specs.Reports.{IsReport, last_verdict};
ghost use Rattle.cat_audit.specs.Decided.{IsWholeVerdict, EndsInNoFault, HasCellsWithin, IsDecided, IsUnderived};
ghost use Rattle.cat_audit.specs.Plain.{IsPlain};

use crate::complete_audits_leave_no_gap;
use cat_depend::{audited_scopes_end_with_the_audited_one, audited_scopes_have_what_they_call};
use cat_scope::Program;

/// In a plain scope no line is Derived, however few leaves may be made. Where none of its targets has more cells than
/// leaves may be made, each line is Covered, Found or Masked. Where besides no well-typed input ends in a fault, the
/// verdict is Complete or Found: Complete exactly where no well-typed input ends in a Conflict or a NoValue, and Found
/// exactly where one does.
pub fn plain_scopes_are_decided(program: &Program)
    ensures underived { (scope : ℕ) (budget : ℕ) (report : ReportSeen) → IsPlain program.now scope
        → IsReport program.now scope budget report → IsUnderived scope report }
    ensures lines { (scope : ℕ) (budget : ℕ) (report : ReportSeen) → IsPlain program.now scope
        → HasCellsWithin program.now scope budget → IsReport program.now scope budget report
        → IsDecided scope report }
    ensures verdict { (scope : ℕ) (budget : ℕ) (report : ReportSeen) → IsPlain program.now scope
        → HasCellsWithin program.now scope budget → EndsInNoFault program.now scope
        → IsReport program.now scope budget report → IsWholeVerdict program.now scope (last_verdict report.sections) }
{
    audited_scopes_have_what_they_call(program);
    audited_scopes_end_with_the_audited_one(program);
    complete_audits_leave_no_gap(program);
}
