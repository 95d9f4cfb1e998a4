// Types.
ghost use Rattle.std.specs.Prelude.{◌≡◌, ◌≤◌, ℕ, length, drop, IfOk, Option};
ghost use Rattle.cat_tree.specs.declared.name.Base.{Base};
ghost use Rattle.cat_parse_expr.specs.Cues as cues;
ghost use Rattle.cat_parse_expr.specs.Types as spec;
ghost use Rattle.cat_parse_expr.specs.Places.{Gives};
ghost use Rattle.cat_parse_expr.specs.Reader.{one};

use crate::cue::Cue;
use crate::miss::{Read, broken_at};
use crate::words::{is_next, word};
use cat_lex::{DoubleKeyword, Keyword, Token, TokenKind};
use cat_pos::Pos;
use cat_tree::{Base, Type};
use std::alloc::{AllocError, Global};

fn base_of(alloc: Global, kind: &TokenKind) -> Result<Option<Base>, AllocError>
    ensures { IfOk result (λ base. base ≡ cues.base_of kind.now) }
{
    Ok(match kind {
        TokenKind::Word(Keyword::Boolean) => Some(Base::Boolean),
        TokenKind::Word(Keyword::Integer) => Some(Base::Integer),
        TokenKind::Word(Keyword::Decimal) => Some(Base::Decimal),
        TokenKind::Word(Keyword::Money) => Some(Base::Money),
        TokenKind::Word(Keyword::Date) => Some(Base::Date),
        TokenKind::Word(Keyword::Duration) => Some(Base::Duration),
        TokenKind::Upper(text) => Some(Base::Named(text.copy()?)),
        _ => None,
    })
}

fn base(alloc: Global, tokens: &[Token], at: usize) -> Read<(Base, Pos)>
    requires { at ≤ length tokens.now }
    ensures { Gives (one spec.base_at) tokens.now at result }
{
    match tokens.get(at) {
        Some(token) => match base_of(alloc, &token.kind)? {
            Some(base) => Ok(((base, token.pos), at + 1)),
            None => Err(broken_at(at)),
        },
        None => Err(broken_at(at)),
    }
}

/// The type at the place, and the place after it.
pub fn a_type(alloc: Global, tokens: &[Token], at: usize) -> Read<Type>
    requires { at ≤ length tokens.now }
    ensures { Gives spec.a_type tokens.now at result }
{
    let mut lists = 0;
    let mut place = at;
    while is_next(tokens, place, Cue::Pair(DoubleKeyword::ListOf)) {
        lists += 1;
        place += 1;
    }
    let ((base, pos), next) = base(alloc, tokens, place)?;
    Ok((Type { lists, base, pos }, next))
}
