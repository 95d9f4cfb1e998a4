//! The audit of a scope: a section for each scope that it calls, directly or not, and for itself, with a line for each
//! target and for each called scope that isn't complete; its text; and the closed trees, where all are complete.
#![tactic(auto)]

mod auditing;
mod called;
mod cause;
mod finding;
mod finding_laws;
mod hanging;
mod laws;
mod leaf;
mod line;
mod lines;
mod plain_laws;
mod report;
mod section;
mod text;
mod tried;

pub use auditing::audit;
pub use cause::undecided_at;
pub use finding::{Finding, Line, TargetLine};
pub use finding_laws::tables_admit_something;
pub use hanging::{asks_derived, hang_alone};
pub use laws::{
    complete_audits_have_closed_trees, complete_audits_leave_no_gap, complete_scopes_leave_no_gap,
    inputs_in_reports_run_again, reports_are_of_declared_scopes,
};
pub use line::target_line;
pub use lines::verdict_text;
pub use plain_laws::plain_scopes_are_decided;
pub use report::{
    CalledLine, CalledLines, CaseTrees, NamedLine, NamedLines, Report, Section, Sections, Verdict,
};
pub use text::report_text;
pub use tried::go_to;
