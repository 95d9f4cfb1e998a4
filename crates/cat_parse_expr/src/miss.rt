// Why no expression was read, and what stood whole before.
ghost use Rattle.std.specs.Prelude.{◌≡◌, ◌≤◌, ℕ, List, length, true, false, None};
ghost use Rattle.cat_lex.specs.declared.token.Token.{Token};
ghost use Rattle.cat_parse_expr.specs.Places.{Gives, SameFound};
ghost use Rattle.cat_parse_expr.specs.Reader.{Reader, hidden, behind_whole};

use std::alloc::AllocError;

/// Where reading broke off.
#[derive(Clone, Copy)]
pub struct Break {
    pub at: usize,
    /// Whether it broke off for the height alone.
    pub deep: bool,
    /// The index behind the last whole front, if there is one.
    pub whole: Option<usize>,
}

/// Why nothing was read.
#[derive(Clone, Copy)]
pub enum Miss {
    Broken(Break),
    Memory,
}

/// What is read, and the place after it.
pub type Read<A> = Result<(A, usize), Miss>;

impl From<AllocError> for Miss {
    ghost use Rattle.cat_parse_expr.specs.declared.miss.Miss.TheVariants.{Memory};

    ghost from_gives = { λ _ miss. miss ≡ Memory };

    fn from(_error: AllocError) -> Miss {
        Miss::Memory
    }
}

/// The token at the index goes on with nothing.
pub(crate) fn broken_at(at: usize) -> Miss
    ensures { result ≡ Miss.Broken (record { at = at; deep = false; whole = None }) }
{
    Miss::Broken(Break {
        at,
        deep: false,
        whole: None,
    })
}

/// The token at the index makes an expression that is too high.
pub(crate) fn too_high(at: usize) -> Miss
    ensures { result ≡ Miss.Broken (record { at = at; deep = true; whole = None }) }
{
    Miss::Broken(Break {
        at,
        deep: true,
        whole: None,
    })
}

/// What was read of a part that words follow: where it broke off, nothing is whole.
pub(crate) fn hidden<A>(read: Read<A>) -> Read<A>
    ensures gives { (r : Reader A) (tokens : List Token) (at : ℕ) → Gives r tokens at read
        → Gives (hidden r) tokens at result }
    ensures found { SameFound read result }
{
    match read {
        Ok(found) => Ok(found),
        Err(Miss::Memory) => Err(Miss::Memory),
        Err(Miss::Broken(broken)) => Err(Miss::Broken(Break {
            at: broken.at,
            deep: broken.deep,
            whole: None,
        })),
    }
}

/// What was read behind something whole: where it broke off, that is whole at the least.
pub(crate) fn behind_whole<A>(read: Read<A>, place: usize) -> Read<A>
    ensures gives { (r : Reader A) (tokens : List Token) → place ≤ length tokens → Gives r tokens place read
        → Gives (behind_whole r) tokens place result }
    ensures found { SameFound read result }
{
    match read {
        Ok(found) => Ok(found),
        Err(Miss::Memory) => Err(Miss::Memory),
        Err(Miss::Broken(broken)) => {
            let whole = match broken.whole {
                Some(front) => front,
                None => place,
            };
            Err(Miss::Broken(Break {
                at: broken.at,
                deep: broken.deep,
                whole: Some(whole),
            }))
        }
    }
}
