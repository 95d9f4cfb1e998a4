// The atoms that a target asks, in an order in which those that a region leaves open stand together.
ghost use Rattle.std.specs.Prelude.{◌≤◌, ◌<◌, ◌^◌, All, IfOk, IfSome, length, slice_get, unsigned_abs};
ghost use Rattle.cat_num.specs.Whole.{Fits};
ghost use Rattle.cat_scope.specs.Names.{IsOneOf};
ghost use Rattle.cat_guard.specs.Judgements.{atoms_in};

use cat_date::number;
use cat_guard::{Atom, Table, asked_atoms};
use cat_pos::List;
use cat_region::{Cut, Threshold};
use std::alloc::{AllocError, Global};

/// The number times a factor.
fn scaled(n: i64, factor: u64) -> i128
    requires n { Fits n }
    requires factor { factor ≤ 2_000_000_000 }
    ensures { unsigned_abs result < 2 ^ 126 }
{
    n as i128 * factor as i128
}

/// Where a threshold stands among those of its kind.
fn threshold_place(threshold: &Threshold) -> i128 {
    match *threshold {
        Threshold::Whole(whole) => whole.get() as i128,
        Threshold::Money(money) => money.get() as i128,
        Threshold::Day(day) => number(day) as i128,
        Threshold::Decimal(frac) => scaled(frac.num(), 2_000_000_000 / frac.den() as u64),
    }
}

/// Where a cut stands among those of its kind, which part the values of a term in this order.
fn cut_place(cut: &Cut) -> (i128, bool) {
    match cut {
        Cut::Below(threshold) => (threshold_place(threshold), false),
        Cut::AtMost(threshold) => (threshold_place(threshold), true),
        Cut::IsTrue => (0, false),
        Cut::IsCase(case) => (*case as i128, false),
    }
}

/// Where an atom stands: by its term, and then by its cut.
fn atom_place(atoms: &[Atom], number: usize) -> (usize, i128, bool) {
    match atoms.get(number) {
        None => (0, 0, false),
        Some(atom) => {
            let (place, at_most) = cut_place(&atom.cut);
            (atom.term, place, at_most)
        }
    }
}

/// The atoms that a target asks, by their terms, and those of one term from its least values to its greatest.
pub(crate) fn atoms_in_order(
    alloc: Global,
    table: &Table,
    target: u32,
) -> Result<List<usize>, AllocError>
    requires { target < length table.now.targets }
    ensures { IfOk result (λ order. IfSome (slice_get table.now.targets target)
        (λ t. All (λ a. IsOneOf a (atoms_in t)) order)) }
{
    let target = table.targets.at(target as usize);
    let mut order = asked_atoms(alloc, target.defs.as_slice())?.into_vec();
    let atoms = table.atoms.as_slice();
    order.sort_by_key(|&number| atom_place(atoms, number))?;
    Ok(List::from_vec(order))
}
