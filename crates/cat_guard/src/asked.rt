// The atoms that guards ask.
ghost use Rattle.std.specs.Prelude.{◌≡◌, ◌++◌, IfOk, OnOk};
ghost use Rattle.cat_guard.specs.Formulas.{asked};
ghost use Rattle.cat_guard.specs.GuardFormulas.{formula_of};
ghost use Rattle.cat_guard.specs.Judgements.{asked_in};

use crate::{Guard, GuardDef};
use cat_pos::List;
use std::alloc::{AllocError, Global};

/// Adds the atoms that a guard asks.
fn add_asked(guard: &Guard, atoms: &mut List<usize>) -> Result<(), AllocError>
    ensures { OnOk result (atoms.new ≡ atoms.old ++ asked (formula_of guard.now)) }
{
    match guard {
        Guard::Constant(_) => Ok(()),
        Guard::Atom(number) => atoms.push(*number),
        Guard::Not(of) => add_asked(of.get(), atoms),
        Guard::Both(left, right) => {
            add_asked(left.get(), atoms)?;
            add_asked(right.get(), atoms)
        }
        Guard::Either(left, right) => {
            add_asked(left.get(), atoms)?;
            add_asked(right.get(), atoms)
        }
        Guard::Differ(left, right) => {
            add_asked(left.get(), atoms)?;
            add_asked(right.get(), atoms)
        }
        Guard::Choice(test, first, second) => {
            add_asked(test.get(), atoms)?;
            add_asked(first.get(), atoms)?;
            add_asked(second.get(), atoms)
        }
    }
}

/// The atoms that definitions ask, in the order in which they stand there.
pub fn asked_atoms(alloc: Global, defs: &[GuardDef]) -> Result<List<usize>, AllocError>
    ensures { IfOk result (λ atoms. atoms ≡ asked_in defs.now) }
{
    let mut atoms = List::new(alloc);
    for def in defs {
        add_asked(&def.guard, &mut atoms)?;
    }
    Ok(atoms)
}
