// Bound names.
ghost use Rattle.std.specs.Prelude.{◌≡◌, ◌-◌, ◌++◌, OnOk, length, map, take};

use crate::Texts;
use cat_tree::Name;
use std::alloc::{AllocError, Global};

/// Binds some names inside of those that are bound.
pub fn bind(alloc: Global, names: &[&Name], bound: &mut Texts) -> Result<(), AllocError>
    ensures { OnOk result (bound.new ≡ bound.old ++ map (λ w. w.now.text) names.now) }
{
    for name in names {
        bound.push(name.text.copy()?)?;
    }
    Ok(())
}

/// Takes off so many of the innermost names.
pub fn unbind(count: usize, bound: &mut Texts)
    ensures { bound.new ≡ take (length bound.old - count) bound.old }
{
    for _ in 0..count {
        bound.pop();
    }
}
