//! Why pieces have no tokens.
ghost use Rattle.std.specs.Prelude.{◌≡◌};

use cat_pos::Pos;
use std::alloc::AllocError;

/// The first position where pieces stop being tokens.
#[derive(Clone, Copy, Debug, PartialEq, Eq)]
pub enum LexRefusal {
    /// No token begins there.
    NoToken(Pos),
    /// The token there has the form of a literal, and passes its bound.
    LiteralRange(Pos),
    Memory,
}

impl From<AllocError> for LexRefusal {
    ghost use Rattle.cat_lex.specs.declared.refusal.LexRefusal.TheVariants.{Memory};

    ghost from_gives = { λ _ refusal. refusal ≡ Memory };

    fn from(_error: AllocError) -> LexRefusal {
        LexRefusal::Memory
    }
}
