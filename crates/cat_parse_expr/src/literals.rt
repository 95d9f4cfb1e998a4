// Literals.
ghost use Rattle.std.specs.Prelude.{◌≡◌, ◌≤◌, length, drop};
ghost use Rattle.cat_parse_expr.specs.Literals as literals;
ghost use Rattle.cat_parse_expr.specs.Places.{Gives};
ghost use Rattle.cat_parse_expr.specs.Reader.{one, heads};

use crate::measured::{Measured, leaf};
use crate::miss::{Read, broken_at};
use cat_lex::{Keyword, Token, TokenKind};
use cat_num::Whole;
use cat_pos::Pos;
use cat_tree::{Node, SurfaceLiteral, Unit};
use std::alloc::Global;

/// The greatest number of years, months or days that a literal gives.
const SPAN_BOUND: i64 = 999_999_999;

fn literal_of(kind: &TokenKind) -> Option<SurfaceLiteral>
    ensures { result ≡ literals.literal_kind kind.now }
{
    match kind {
        TokenKind::Int(number) => Some(SurfaceLiteral::Int(*number)),
        TokenKind::Dec(decimal) => Some(SurfaceLiteral::Dec(*decimal)),
        TokenKind::Pct(decimal) => Some(SurfaceLiteral::Pct(*decimal)),
        TokenKind::Money(amount) => Some(SurfaceLiteral::Money(*amount)),
        TokenKind::Date(day) => Some(SurfaceLiteral::Date(*day)),
        TokenKind::Word(Keyword::True) => Some(SurfaceLiteral::Boolean(true)),
        TokenKind::Word(Keyword::False) => Some(SurfaceLiteral::Boolean(false)),
        _ => None,
    }
}

fn literal_at(tokens: &[Token], at: usize) -> Read<(SurfaceLiteral, Pos)>
    requires { at ≤ length tokens.now }
    ensures { Gives (one literals.literal_of) tokens.now at result }
{
    match tokens.get(at) {
        Some(token) => match literal_of(&token.kind) {
            Some(literal) => Ok(((literal, token.pos), at + 1)),
            None => Err(broken_at(at)),
        },
        None => Err(broken_at(at)),
    }
}

fn unit_of(kind: &TokenKind) -> Option<Unit>
    ensures { result ≡ literals.unit_kind kind.now }
{
    match kind {
        TokenKind::Word(Keyword::Year) => Some(Unit::Year),
        TokenKind::Word(Keyword::Month) => Some(Unit::Month),
        TokenKind::Word(Keyword::Day) => Some(Unit::Day),
        _ => None,
    }
}

/// The number, or the duration where a unit follows.
fn numbered(tokens: &[Token], at: usize, number: Whole) -> Read<SurfaceLiteral>
    requires { at ≤ length tokens.now }
    ensures { Gives (literals.spanned (SurfaceLiteral.Int number)) tokens.now at result }
{
    if number.get() > SPAN_BOUND {
        return Ok((SurfaceLiteral::Int(number), at));
    }
    match tokens.get(at) {
        Some(token) => match unit_of(&token.kind) {
            Some(unit) => Ok((SurfaceLiteral::Span(number, unit), at + 1)),
            None => Ok((SurfaceLiteral::Int(number), at)),
        },
        None => Ok((SurfaceLiteral::Int(number), at)),
    }
}

fn spanned(tokens: &[Token], at: usize, literal: SurfaceLiteral) -> Read<SurfaceLiteral>
    requires { at ≤ length tokens.now }
    ensures { Gives (literals.spanned literal) tokens.now at result }
{
    match literal {
        SurfaceLiteral::Int(number) => numbered(tokens, at, number),
        other => Ok((other, at)),
    }
}

/// A literal, with a unit where one follows.
pub(crate) fn a_literal(alloc: Global, tokens: &[Token], at: usize) -> Read<Measured>
    requires { at ≤ length tokens.now }
    ensures { Gives literals.a_literal tokens.now at result }
{
    let ((literal, pos), at) = literal_at(tokens, at)?;
    let (literal, at) = spanned(tokens, at, literal)?;
    Ok((leaf(alloc, Node::Literal(literal, pos))?, at))
}
