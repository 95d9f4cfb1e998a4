// Why scopes have no order.
ghost use Rattle.std.specs.Prelude.{◌≡◌};

use std::alloc::AllocError;

/// Why scopes were not put in order.
#[derive(Clone, Copy, Debug, PartialEq, Eq)]
pub enum CallRefusal {
    /// A scope, and one that it calls and that leads back to it.
    Cycle(u32, u32),
    Memory,
}

impl From<AllocError> for CallRefusal {
    ghost use Rattle.cat_depend.specs.declared.refusal.CallRefusal.TheVariants.{Memory};

    ghost from_gives = { λ _ refusal. refusal ≡ Memory };

    fn from(_error: AllocError) -> CallRefusal {
        CallRefusal::Memory
    }
}
