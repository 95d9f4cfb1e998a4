// Lists in two parts.
ghost use Rattle.std.specs.Prelude.{◌≡◌, [], ◌∷◌, IfOk, MatchOption};

use cat_pos::List;
use std::alloc::{AllocError, Global};

/// The first of some things, and those behind it.
pub fn parted<T>(things: &List<T>) -> Option<(&T, &[T])>
    ensures { MatchOption result (things.now ≡ []) (λ p. things.now ≡ p.0.now ∷ p.1.now) }
{
    things.as_slice().split_first()
}

/// A list of one thing.
pub fn alone<T: Drop>(alloc: Global, thing: T) -> Result<List<T>, AllocError>
    ensures { IfOk result (λ things. things ≡ thing ∷ []) }
{
    let mut things = List::new(alloc);
    things.push(thing)?;
    Ok(things)
}
