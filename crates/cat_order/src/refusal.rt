// Why items have no order.
ghost use Rattle.std.specs.Prelude.{◌≡◌};

use std::alloc::AllocError;

/// Why items were not put in order.
#[derive(Clone, Copy, Debug, PartialEq, Eq)]
pub enum OrderRefusal {
    /// The item depends on itself, at once or through others.
    Cycle(u32),
    Memory,
}

impl From<AllocError> for OrderRefusal {
    ghost use Rattle.cat_order.specs.declared.refusal.OrderRefusal.TheVariants.{Memory};

    ghost from_gives = { λ _ refusal. refusal ≡ Memory };

    fn from(_error: AllocError) -> OrderRefusal {
        OrderRefusal::Memory
    }
}
