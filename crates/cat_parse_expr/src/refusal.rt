// Why tokens are no expression.
ghost use Rattle.std.specs.Prelude.{◌≡◌, cond};

use crate::miss::{Break, Miss};
use std::alloc::AllocError;

/// Why no expression was read.
#[derive(Clone, Copy, Debug, PartialEq, Eq)]
pub enum ParseRefusal {
    /// The token there goes on with no expression.
    Unexpected(usize),
    /// The token there makes the expression higher than 256.
    TooDeep(usize),
    Memory,
}

impl From<AllocError> for ParseRefusal {
    ghost use Rattle.cat_parse_expr.specs.declared.refusal.ParseRefusal.TheVariants.{Memory};

    ghost from_gives = { λ _ refusal. refusal ≡ Memory };

    fn from(_error: AllocError) -> ParseRefusal {
        ParseRefusal::Memory
    }
}

/// What is refused where reading broke off so.
pub(crate) fn refusal_at(broken: Break) -> ParseRefusal
    ensures { result ≡ cond broken.deep (ParseRefusal.TooDeep broken.at) (ParseRefusal.Unexpected broken.at) }
{
    if broken.deep {
        ParseRefusal::TooDeep(broken.at)
    } else {
        ParseRefusal::Unexpected(broken.at)
    }
}

impl From<Miss> for ParseRefusal {
    ghost use Rattle.cat_parse_expr.specs.Refusals.{refusal_of};

    ghost from_gives = { λ miss refusal. refusal ≡ refusal_of miss };

    fn from(miss: Miss) -> ParseRefusal {
        match miss {
            Miss::Broken(broken) => refusal_at(broken),
            Miss::Memory => ParseRefusal::Memory,
        }
    }
}
