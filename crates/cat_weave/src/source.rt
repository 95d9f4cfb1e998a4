// What is gathered of all files, and why it can't be.
ghost use Rattle.std.specs.Prelude.{◌≡◌};
ghost use Rattle.cat_weave.specs.declared.source.GatherRefusal.TheVariants.{Memory};

use crate::Headings;
use cat_pos::{Files, Pieces, Pos, Text};
use std::alloc::AllocError;
use thiserror::Error;

/// The code and headings of a main file and all that it includes.
#[derive(Debug, Drop)]
pub struct Source {
    pub files: Files,
    pub pieces: Pieces,
    pub headings: Headings,
}

/// Why files can't be gathered. A text is the name of the file at fault.
#[derive(Debug, Drop, Error)]
pub enum GatherRefusal {
    /// The position after the longest front that is UTF-8.
    #[error("a file isn't UTF-8")]
    NotUtf8(Text, Pos),
    /// The opening line of a block that isn't closed.
    #[error("a block of code isn't closed")]
    FenceOpen(Text, Pos),
    /// An include of a file already taken, or of a 65th file, and the file in which it stands.
    #[error("a file is included twice, or too many are")]
    IncludeTwice(Text, Pos),
    #[error("a file is missing")]
    Missing(Text),
    #[error("a file can't be read")]
    ReadFault(Text),
    /// More than 4 MiB, or more than the files in front of it leave of 16 MiB.
    #[error("a file is too large")]
    TooLarge(Text),
    #[error("out of memory")]
    Memory,
}

impl From<AllocError> for GatherRefusal {
    ghost from_gives = { λ _ e. e ≡ Memory };

    fn from(_: AllocError) -> Self {
        GatherRefusal::Memory
    }
}
