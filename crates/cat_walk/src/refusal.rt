// Why a walk doesn't find a tree closed.
ghost use Rattle.std.specs.Prelude.{◌≡◌};

use crate::place::NodePlace;
use std::alloc::AllocError;

/// Why a walk ends without a yes.
#[derive(Clone, Copy, PartialEq, Eq, Debug)]
pub enum WalkRefusal {
    /// The first leaf that isn't covered, by where it is written.
    NotCovered(NodePlace),
    Memory,
}

impl From<AllocError> for WalkRefusal {
    ghost use Rattle.cat_walk.specs.declared.refusal.WalkRefusal.TheVariants.{Memory};

    ghost from_gives = { λ _ refusal. refusal ≡ Memory };

    fn from(_error: AllocError) -> WalkRefusal {
        WalkRefusal::Memory
    }
}
