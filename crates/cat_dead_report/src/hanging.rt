// On what the regions of ways hang.
ghost use Rattle.std.specs.Prelude.{◌≡◌};
ghost use Rattle.cat_dead_report.specs.inside.Hanging.{hang_somewhere};

use cat_audit::asks_derived;
use cat_guard::Table;
use cat_search::Answer;

/// Whether one of some answers is to an atom of a derived term: the region that they lead to constrains what a run
/// computes.
pub(crate) fn hang_somewhere(table: &Table, answers: &[Answer]) -> bool
    ensures { result ≡ hang_somewhere table.now answers.now }
{
    answers.iter().any(|answer| asks_derived(table, answer))
}
