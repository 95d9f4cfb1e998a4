// What a literate source is made of.
ghost use Rattle.std.specs.Prelude.{◌≡◌};
ghost use Rattle.cat_weave.specs.declared.segment.WeaveRefusal.TheVariants.{Memory};

use cat_pos::{List, Piece, Pos, Text};
use std::alloc::AllocError;

/// A segment of a literate source, with the position at which its first line begins.
#[derive(Debug, Drop)]
pub enum Segment {
    /// A run of code lines, each with its line feed.
    Code(Piece),
    /// A heading with its level, from 1 to 6, and its text.
    Heading(u32, Text, Pos),
    /// The name of a file whose segments stand here.
    Include(Text, Pos),
}

pub type Segments = List<Segment>;

/// The segments of one file, in order.
#[derive(Debug, Drop)]
pub struct Woven {
    pub segments: Segments,
}

/// A heading among the pieces of code of all files.
#[derive(Debug, Drop)]
pub struct Heading {
    /// How many pieces of code stand in front of it.
    pub pieces: usize,
    /// From 1 to 6.
    pub level: u32,
    pub text: Text,
    pub pos: Pos,
}

pub type Headings = List<Heading>;

/// Why a source can't be woven.
#[derive(Clone, Copy, Debug, PartialEq, Eq)]
pub enum WeaveRefusal {
    /// The position after the longest front that is UTF-8.
    NotUtf8(Pos),
    /// The opening line of a block that isn't closed.
    FenceOpen(Pos),
    Memory,
}

impl From<AllocError> for WeaveRefusal {
    ghost from_gives = { λ _ e. e ≡ Memory };

    fn from(_: AllocError) -> Self {
        WeaveRefusal::Memory
    }
}
