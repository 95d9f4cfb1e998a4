// The front of a form's key.
ghost use Rattle.std.specs.Prelude.{◌≡◌, ◌++◌, IfOk};
ghost use Rattle.cat_audit_keys.specs.inside.Fronts.{front_of};

use cat_pos::List;
use std::alloc::{AllocError, Global};

/// The numbers that spell a term or a part of one.
pub type Spelling = List<u64>;

/// Behind a key the number of a form, its own numbers, and how many parts follow.
#[tactic(auto, using(crate::proofs::KeyEquations::joins))]
pub fn with_front(
    alloc: Global,
    key: Spelling,
    form: u64,
    own: &[u64],
    parts: usize,
) -> Result<Spelling, AllocError>
    ensures { IfOk result (λ longer. longer ≡ key ++ front_of form own.now parts) }
{
    let mut key = key;
    key.push(form)?;
    key.push(own.len() as u64)?;
    key.append(List::from_slice(alloc, own)?)?;
    key.push(parts as u64)?;
    Ok(key)
}
