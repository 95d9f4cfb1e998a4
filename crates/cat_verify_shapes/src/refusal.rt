// Why code has no shapes.
ghost use Rattle.std.specs.Prelude.{◌≡◌};
ghost use Rattle.cat_verify_shapes.specs.declared.refusal.ShapeRefusal.TheVariants.{Memory};

use std::alloc::AllocError;
use thiserror::Error;

/// Why code isn't shaped.
#[derive(Clone, Copy, Debug, Error)]
pub enum ShapeRefusal {
    /// The number of an instruction.
    #[error("an instruction may lack what it works on")]
    BadShape(usize),
    #[error("out of memory")]
    Memory,
}

impl From<AllocError> for ShapeRefusal {
    ghost from_gives = { λ _ e. e ≡ Memory };

    fn from(_: AllocError) -> Self {
        ShapeRefusal::Memory
    }
}
