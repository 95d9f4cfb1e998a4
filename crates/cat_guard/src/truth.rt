// What a region decides of guards.
ghost use Rattle.std.specs.Prelude.{◌≡◌, ℕ, Bool, true, Option, IsTrue};
ghost use Rattle.cat_guard.specs.Formulas.{Formula, Atom as Asked, Not as Negated, Choice as Chosen, known};
ghost use Rattle.cat_guard.specs.GuardFormulas.{formula_of};
ghost use Rattle.cat_guard.specs.Judged.{answers_in};
ghost use Rattle.cat_guard.specs.declared.truth.Truth.TheVariants.{Open};
ghost use Rattle.cat_guard.specs.inside.Telling.{are_cuts_of, is_it, told, Tells};

use crate::{Atom, Guard};
use cat_region::Region;

/// A truth value, or an undecided atom that it hangs on.
#[derive(Clone, Copy, PartialEq, Eq, Debug)]
pub enum Truth {
    Known(bool),
    Open(usize),
}

/// The atom of that number. One that isn't there has no answer.
pub(crate) fn answer(region: &Region, atoms: &[Atom], number: usize) -> Truth
    requires { IsTrue (are_cuts_of region.now.dims atoms.now) }
    ensures { Tells (answers_in atoms.now region.now) (Asked number) result }
{
    let Some(atom) = atoms.get(number) else {
        return Truth::Open(number);
    };
    match region.decided(atom.term, &atom.cut) {
        Some(answer) => Truth::Known(answer),
        None => Truth::Open(number),
    }
}

fn negation(of: Truth) -> Truth
    ensures { (answers : ℕ → Option Bool) (f : Formula ℕ) → Tells answers f of → Tells answers (Negated f) result }
{
    match of {
        Truth::Known(value) => Truth::Known(!value),
        Truth::Open(atom) => Truth::Open(atom),
    }
}

/// What two agree on, where the atom that chooses between them is undecided.
fn agreement(atom: usize, first: Truth, second: Truth) -> Truth
    ensures { (answers : ℕ → Option Bool) (c f g : Formula ℕ) → Tells answers c (Open atom) → Tells answers f first
        → Tells answers g second → Tells answers (Chosen c f g) result }
{
    let Truth::Known(value) = first else {
        return Truth::Open(atom);
    };
    let Truth::Known(other) = second else {
        return Truth::Open(atom);
    };
    if value == other {
        first
    } else {
        Truth::Open(atom)
    }
}

fn choice(test: Truth, first: Truth, second: Truth) -> Truth
    ensures { (answers : ℕ → Option Bool) (c f g : Formula ℕ) → Tells answers c test → Tells answers f first
        → Tells answers g second → Tells answers (Chosen c f g) result }
{
    match test {
        Truth::Known(true) => first,
        Truth::Known(false) => second,
        Truth::Open(atom) => agreement(atom, first, second),
    }
}

/// Whether what is known is this truth value.
pub(crate) fn is_told(truth: Truth, so: bool) -> bool
    ensures { result ≡ is_it so (told truth) }
{
    let Truth::Known(value) = truth else {
        return false;
    };
    if so { value } else { !value }
}

/// What a region decides of a guard. The connectives of two parts are choices between what the second part is and what
/// the first alone decides; it goes into the second part only where the first one doesn't say it all.
#[cycle(known)]
pub fn known(region: &Region, atoms: &[Atom], guard: &Guard) -> Truth
    requires { IsTrue (are_cuts_of region.now.dims atoms.now) }
    ensures { Tells (answers_in atoms.now region.now) (formula_of guard.now) result }
{
    match guard {
        Guard::Constant(value) => Truth::Known(*value),
        Guard::Atom(number) => answer(region, atoms, *number),
        Guard::Not(of) => negation(known(region, atoms, of.get())),
        Guard::Both(left, right) => {
            let left = known(region, atoms, left.get());
            let is_false = is_told(left, false);
            if is_false {
                return left;
            }
            let right = known(region, atoms, right.get());
            choice(left, right, Truth::Known(false))
        }
        Guard::Either(left, right) => {
            let left = known(region, atoms, left.get());
            let is_true = is_told(left, true);
            if is_true {
                return left;
            }
            let right = known(region, atoms, right.get());
            choice(left, Truth::Known(true), right)
        }
        Guard::Differ(left, right) => {
            let left = known(region, atoms, left.get());
            let right = known(region, atoms, right.get());
            choice(left, negation(right), right)
        }
        Guard::Choice(test, first, second) => {
            let test = known(region, atoms, test.get());
            let first = known(region, atoms, first.get());
            let second = known(region, atoms, second.get());
            choice(test, first, second)
        }
    }
}

/// Whether a region knows a guard to have this truth value. Of two parts it looks at the second, and at the first only
/// where the second doesn't say it all.
#[cycle(so)]
pub(crate) fn is_so(region: &Region, atoms: &[Atom], guard: &Guard, so: bool) -> bool
    requires { IsTrue (are_cuts_of region.now.dims atoms.now) }
    ensures { result ≡ is_it so (known (answers_in atoms.now region.now) (formula_of guard.now)) }
{
    match guard {
        Guard::Not(of) => is_so(region, atoms, of.get(), !so),
        Guard::Both(left, right) => {
            let second = is_so(region, atoms, right.get(), so);
            if second != so {
                return second;
            }
            is_so(region, atoms, left.get(), so)
        }
        Guard::Either(left, right) => {
            let other = is_so(region, atoms, right.get(), so);
            if other == so {
                return other;
            }
            is_so(region, atoms, left.get(), so)
        }
        _ => is_told(known(region, atoms, guard), so),
    }
}
