// The atoms of a target.
ghost use Rattle.std.specs.Prelude.{◌≡◌, ℕ, nat_eq, IfOk};
ghost use Rattle.std.specs.List.{list_any};
ghost use Rattle.std.specs.Ordering.{nat_cmp};
ghost use Rattle.std.specs.BTreeSet.{contains};
ghost use Rattle.cat_cert.specs.inside.Atoms.{HasAtoms};

use cat_guard::{TableTarget, asked_atoms};
use std::alloc::{AllocError, Global};
use std::collections::BTreeSet;

/// Numbers as a set.
fn set_of(alloc: Global, numbers: &[usize]) -> Result<BTreeSet<usize>, AllocError>
    ensures { IfOk result (λ set. (a : ℕ) → contains nat_cmp set a ≡ list_any (nat_eq a) numbers.now) }
{
    let mut set = BTreeSet::new(alloc);
    for &number in numbers {
        set.insert(number)?;
    }
    Ok(set)
}

/// The atoms of a target as a set.
pub(crate) fn atoms_of(alloc: Global, target: &TableTarget) -> Result<BTreeSet<usize>, AllocError>
    ensures { IfOk result (λ set. HasAtoms set target.now) }
{
    let atoms = asked_atoms(alloc, target.defs.as_slice())?;
    set_of(alloc, atoms.as_slice())
}
