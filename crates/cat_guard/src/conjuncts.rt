// The conjuncts of long guards: where one of them is false, the whole is, whatever the others are.
ghost use Rattle.std.specs.Prelude.{List as Listed, Some, ◌≡◌, ◌≤◌, ◌<◌, IfOk, IfSome, IsTrue, OnOk, length, slice_get};
ghost use Rattle.cat_guard.specs.declared.guard.GuardDef.{GuardDef as GuardDefSeen};
ghost use Rattle.cat_guard.specs.GuardFormulas.{formula_of};
ghost use Rattle.cat_guard.specs.Judged.{answers_in};
ghost use Rattle.cat_guard.specs.Conjuncts.{AreAmong, AreOfDefs, joined, negated};
ghost use Rattle.cat_guard.specs.inside.Joining.{Adds, HasBroken, IsBroken};
ghost use Rattle.cat_guard.specs.inside.Telling.{are_cuts_of};

use crate::truth::{answer, is_told};
use crate::{Atom, Guard, GuardDef, Table};
use cat_pos::List;
use cat_region::Region;
use std::alloc::{AllocError, Global};

/// An atom, and the truth value that it has where the guard is true.
#[derive(Clone, Copy, PartialEq, Eq, Debug)]
pub struct Conjunct {
    pub atom: usize,
    pub so: bool,
}

pub type Conjuncts = List<Conjunct>;

/// Of each definition of a target the conjuncts that its guard joins, where these are many and it joins nothing else,
/// those of one term beside each other; and of any other definition none.
pub type DefConjuncts = List<Conjuncts>;

/// A guard that joins at most so many conjuncts is looked at itself.
const FEW: usize = 16;

/// Adds the conjunct that the negation of a guard is, if it is one.
fn add_negated(guard: &Guard, conjuncts: &mut Conjuncts) -> Result<(), AllocError>
    ensures { OnOk result (Adds (negated (formula_of guard.now)) conjuncts.old conjuncts.new) }
{
    match guard {
        Guard::Atom(atom) => conjuncts.push(Conjunct {
            atom: *atom,
            so: false,
        }),
        _ => Ok(()),
    }
}

/// Adds the conjuncts that a guard joins.
fn add_conjuncts(guard: &Guard, conjuncts: &mut Conjuncts) -> Result<(), AllocError>
    ensures { OnOk result (Adds (joined (formula_of guard.now)) conjuncts.old conjuncts.new) }
{
    match guard {
        Guard::Atom(atom) => conjuncts.push(Conjunct {
            atom: *atom,
            so: true,
        }),
        Guard::Not(of) => add_negated(of.get(), conjuncts),
        Guard::Both(left, right) => {
            add_conjuncts(left.get(), conjuncts)?;
            add_conjuncts(right.get(), conjuncts)
        }
        _ => Ok(()),
    }
}

/// The term of an atom.
fn term_of(atoms: &[Atom], number: usize) -> usize {
    match atoms.get(number) {
        Some(atom) => atom.term,
        None => 0,
    }
}

/// How many atoms and constants stand in a guard, or the greatest number.
fn leaf_count(guard: &Guard) -> usize {
    match guard {
        Guard::Constant(_) | Guard::Atom(_) => 1,
        Guard::Not(of) => leaf_count(of.get()),
        Guard::Both(left, right) => {
            leaf_count(left.get()).saturating_add(leaf_count(right.get()))
        }
        Guard::Either(left, right) => {
            leaf_count(left.get()).saturating_add(leaf_count(right.get()))
        }
        Guard::Differ(left, right) => {
            leaf_count(left.get()).saturating_add(leaf_count(right.get()))
        }
        Guard::Choice(test, first, second) => leaf_count(test.get())
            .saturating_add(leaf_count(first.get()))
            .saturating_add(leaf_count(second.get())),
    }
}

/// Whether a guard joins so many conjuncts and nothing else, and these are many.
fn is_long(guard: &Guard, joined: usize) -> bool {
    joined > FEW && leaf_count(guard) == joined
}

/// The conjuncts that a guard joins, where it joins many and nothing else.
fn conjuncts_of(alloc: Global, atoms: &[Atom], guard: &Guard) -> Result<Conjuncts, AllocError>
    ensures { IfOk result (AreAmong (joined (formula_of guard.now))) }
{
    let mut conjuncts = List::new(alloc);
    add_conjuncts(guard, &mut conjuncts)?;
    if !is_long(guard, conjuncts.len()) {
        return Ok(List::new(alloc));
    }
    let mut sorted = conjuncts.into_vec();
    sorted.sort_by_key(|conjunct| term_of(atoms, conjunct.atom))?;
    Ok(List::from_vec(sorted))
}

/// Those of each of some definitions.
fn def_conjuncts(
    alloc: Global,
    atoms: &[Atom],
    defs: &[GuardDef],
) -> Result<DefConjuncts, AllocError>
    ensures { IfOk result (AreOfDefs defs.now) }
{
    let mut made = List::new(alloc);
    for def in defs {
        let conjuncts = conjuncts_of(alloc, atoms, &def.guard)?;
        made.push(conjuncts)?;
    }
    Ok(made)
}

/// The conjuncts that the long guards of the target of that number join.
pub(crate) fn long_conjuncts(
    alloc: Global,
    table: &Table,
    target: u32,
) -> Result<DefConjuncts, AllocError>
    requires { target < length table.now.targets }
    ensures { IfOk result (λ conjuncts. IfSome (slice_get table.now.targets target) (λ t. AreOfDefs t.defs conjuncts)) }
{
    let atoms = table.atoms.as_slice();
    let target = table.targets.at(target as usize);
    def_conjuncts(alloc, atoms, target.defs.as_slice())
}

/// How many conjuncts there are, or the greatest number.
pub(crate) fn conjunct_count(conjuncts: &DefConjuncts) -> usize {
    let mut count = 0usize;
    for joined in conjuncts.as_slice() {
        count = count.saturating_add(joined.len());
    }
    count
}

/// The conjuncts of a definition, none where its guard joins few.
pub(crate) fn conjuncts_at(conjuncts: &DefConjuncts, number: u32) -> &[Conjunct]
    ensures { (defs : Listed GuardDefSeen) (def : GuardDefSeen) → AreOfDefs defs conjuncts.now
        → slice_get defs number ≡ Some def → AreAmong (joined (formula_of def.guard)) result.now }
{
    match conjuncts.get(number as usize) {
        Some(joined) => joined.as_slice(),
        None => &[],
    }
}

/// Where the conjuncts of a term begin.
fn first_of(atoms: &[Atom], conjuncts: &[Conjunct], term: usize) -> usize
    ensures { result ≤ length conjuncts.now }
{
    let mut low = 0;
    let mut high = conjuncts.len();
    while low < high {
        let middle = low + (high - low) / 2;
        if term_of(atoms, conjuncts[middle].atom) < term {
            low = middle + 1;
        } else {
            high = middle;
        }
    }
    low
}

/// Whether a region knows a conjunct to be false.
fn is_broken(region: &Region, atoms: &[Atom], conjunct: Conjunct) -> bool
    requires { IsTrue (are_cuts_of region.now.dims atoms.now) }
    ensures { IsTrue result → IsBroken (answers_in atoms.now region.now) conjunct }
{
    is_told(answer(region, atoms, conjunct.atom), !conjunct.so)
}

/// Whether a region knows one of the conjuncts of a term to be false.
fn has_broken_of(region: &Region, atoms: &[Atom], conjuncts: &[Conjunct], term: usize) -> bool
    requires { IsTrue (are_cuts_of region.now.dims atoms.now) }
    ensures { IsTrue result → HasBroken (answers_in atoms.now region.now) conjuncts.now }
{
    for index in first_of(atoms, conjuncts, term)..conjuncts.len() {
        let conjunct = conjuncts[index];
        if term_of(atoms, conjunct.atom) != term {
            return false;
        }
        if is_broken(region, atoms, conjunct) {
            return true;
        }
    }
    false
}

/// Whether a region knows one of the conjuncts of the term that was narrowed last to be false.
pub(crate) fn has_broken(region: &Region, atoms: &[Atom], conjuncts: &[Conjunct]) -> bool
    requires { IsTrue (are_cuts_of region.now.dims atoms.now) }
    ensures { IsTrue result → HasBroken (answers_in atoms.now region.now) conjuncts.now }
{
    match region.last() {
        Some((term, _, _)) => has_broken_of(region, atoms, conjuncts, term),
        None => false,
    }
}
