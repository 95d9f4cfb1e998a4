// What a report says of a plain scope: the law is the contract of a function.
ghost use Rattle.std.specs.Prelude.{ℕ, List as Listed};
ghost use Rattle.cat_scope.specs.Names.{AllHave};
ghost use Rattle.cat_audit.specs.Decided.{HasCellsWithin};
ghost use Rattle.cat_audit.specs.Plain.{IsPlain};
ghost use Rattle.cat_dead_report.specs.declared.report.DeadReport.{DeadReport as ReportSeen};
ghost use Rattle.cat_dead_report.specs.DeadReports.{IsDeadReport};
ghost use Rattle.cat_dead_report.specs.PlainReports.{AreDecidedLines};

use cat_scope::Program;

/// In a plain scope none of whose targets has more cells than leaves may be made, each line is `decides`, Masked or
/// `never decides`.
pub fn plain_scopes_have_decided_lines(program: &Program)
    ensures { (files : Listed (Listed ℕ)) (scope : ℕ) (budget : ℕ) (report : ReportSeen) → IsPlain program.now scope
        → HasCellsWithin program.now scope budget → (is : IsDeadReport program.now files scope budget report)
        → AllHave AreDecidedLines is.lines }
{}
