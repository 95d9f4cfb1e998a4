// Which atom a region is split on.
ghost use Rattle.std.specs.Prelude.{◌≡◌, ◌<◌, ◌≤◌, Bool, None, All, IsTrue, IfSome, length, slice_get};
ghost use Rattle.cat_scope.specs.Names.{IsOneOf};
ghost use Rattle.cat_guard.specs.Judged.{answers_in};
ghost use Rattle.cat_guard.specs.Valuations.{dims_of};
ghost use Rattle.cat_guard.specs.Judgements.{atoms_in};
ghost use Rattle.cat_search.specs.Searched.{IsSplit};

use cat_guard::{Atom, Table};
use cat_region::Region;

/// Whether a region doesn't decide an atom.
fn is_undecided(table: &Table, region: &Region, number: usize) -> bool
    requires number { number < length table.now.atoms }
    requires dims { region.now.dims ≡ dims_of table.now.terms }
    ensures { IsTrue result → answers_in table.now.atoms region.now number ≡ None }
{
    let Atom { term, cut } = *table.atoms.at(number);
    region.decided(term, &cut).is_none()
}

/// Whether an atom stands before those of a term that a region doesn't decide, or, where `end` is true, before their
/// end: cuts below what is admitted are false there, and those above it true.
fn stands_before(table: &Table, region: &Region, number: usize, term: usize, end: bool) -> bool
    requires number { number < length table.now.atoms }
    requires dims { region.now.dims ≡ dims_of table.now.terms }
{
    let atom = *table.atoms.at(number);
    if atom.term != term {
        return atom.term < term;
    }
    match region.decided(term, &atom.cut) {
        Some(answer) => !answer,
        None => end,
    }
}

/// Where the undecided atoms of a term begin in the order, or where they end.
fn bound(table: &Table, region: &Region, order: &[usize], term: usize, end: bool) -> usize
    requires order { All (λ a. a < length table.now.atoms) order.now }
    requires dims { region.now.dims ≡ dims_of table.now.terms }
    ensures { result ≤ length order.now }
{
    let mut low = 0;
    let mut high = order.len();
    while low < high {
        let middle = low + (high - low) / 2;
        if stands_before(table, region, order[middle], term, end) {
            low = middle + 1;
        } else {
            high = middle;
        }
    }
    low
}

/// The middle one of the atoms that a region doesn't decide and that ask the same term as the one that is named, of two
/// the first. It costs a few questions for each doubling of the number of atoms. Among cases, whose undecided ones need
/// not stand together, it may be the named one itself.
pub(crate) fn split_atom(
    table: &Table,
    target: u32,
    region: &Region,
    order: &[usize],
    named: usize,
) -> usize
    requires target { target < length table.now.targets }
    requires dims { region.now.dims ≡ dims_of table.now.terms }
    requires order { IfSome (slice_get table.now.targets target) (λ t. All (λ a. IsOneOf a (atoms_in t)) order.now) }
    requires named { IfSome (slice_get table.now.targets target) (λ t. IsSplit table.now.atoms t region.now named) }
    ensures { IfSome (slice_get table.now.targets target) (λ t. IsSplit table.now.atoms t region.now result) }
{
    let term = table.atoms.at(named).term;
    let low = bound(table, region, order, term, false);
    let high = bound(table, region, order, term, true);
    let last = high.saturating_sub(1);
    let Some(&middle) = order.get(low + last.saturating_sub(low) / 2) else {
        return named;
    };
    if is_undecided(table, region, middle) {
        middle
    } else {
        named
    }
}
