// Why a listing isn't read.
ghost use Rattle.std.specs.Prelude.{◌≡◌};
ghost use Rattle.cat_image.specs.declared.refusal.ImageRefusal.TheVariants.{Memory};

use std::alloc::AllocError;
use thiserror::Error;

/// Why bytes are the text of no image.
#[derive(Clone, Copy, Debug, Error)]
pub enum ImageRefusal {
    /// The number of a line, from 1 on.
    #[error("a line isn't of a form that is due")]
    BadLine(usize),
    #[error("the text ends too early")]
    Short,
    #[error("out of memory")]
    Memory,
}

impl From<AllocError> for ImageRefusal {
    ghost from_gives = { λ _ e. e ≡ Memory };

    fn from(_: AllocError) -> Self {
        ImageRefusal::Memory
    }
}
