// Ways to regions that hang on what a run computes alone.
ghost use Rattle.std.specs.Prelude.{◌≡◌, slice_get};
ghost use Rattle.cat_audit.specs.Hanging.{asks_derived, are_derived, hang_alone};

use crate::cause::is_derived;
use cat_guard::Table;
use cat_search::Answer;

/// Whether an answer is to an atom of a derived term.
pub fn asks_derived(table: &Table, answer: &Answer) -> bool
    ensures { result ≡ asks_derived table.now answer.now }
{
    match table.atoms.get(answer.atom) {
        Some(atom) => is_derived(table.terms.as_slice(), atom.term),
        None => false,
    }
}

fn are_derived(table: &Table, answers: &[Answer]) -> bool
    ensures { result ≡ are_derived table.now answers.now }
{
    answers.iter().all(|answer| asks_derived(table, answer))
}

/// Whether answers are there, and each is to an atom of a derived term: the region that they lead to then constrains no
/// input.
pub fn hang_alone(table: &Table, answers: &[Answer]) -> bool
    ensures { result ≡ hang_alone table.now answers.now }
{
    !answers.is_empty() && are_derived(table, answers)
}
