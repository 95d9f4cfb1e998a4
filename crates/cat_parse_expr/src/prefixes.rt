// Prefixes and sums.
ghost use Rattle.std.specs.Prelude.{◌≡◌, ◌≤◌, ◌+◌, length, drop, IfOk};
ghost use Rattle.cat_parse_expr.specs.Climbing.{operand as operand_to};
ghost use Rattle.cat_parse_expr.specs.Prefixes as prefixes;
ghost use Rattle.cat_parse_expr.specs.Places.{Gives};

use crate::climbing::operand;
use crate::cue::Cue;
use crate::kinds::a_type;
use crate::levels::prefix_level;
use crate::limits::Limits;
use crate::measured::{Measured, ending};
use crate::miss::Read;
use crate::words::{word, word_with_room};
use cat_lex::{DoubleKeyword, Keyword, Symbol, Token};
use cat_pos::{Boxed, Pos};
use cat_tree::{Node, Prefix};
use std::alloc::Global;

/// A word and `of`, behind which there is room for a part.
fn word_of(tokens: &[Token], at: usize, first: Keyword, below: u16) -> Read<Pos>
    requires { at ≤ length tokens.now }
    ensures { Gives (prefixes.word_of (operand_to below) below first) tokens.now at result }
{
    let (pos, at) = word(tokens, at, Cue::Word(first))?;
    let (_, at) = word_with_room(tokens, at, Cue::Word(Keyword::Of), below)?;
    Ok((pos, at))
}

/// The words of a prefix, behind which there is room for a part.
fn prefix_words(tokens: &[Token], at: usize, prefix: Prefix, below: u16) -> Read<Pos>
    requires { at ≤ length tokens.now }
    ensures { Gives (prefixes.prefix_words (operand_to below) below prefix) tokens.now at result }
{
    match prefix {
        Prefix::Not => word_with_room(tokens, at, Cue::Word(Keyword::Not), below),
        Prefix::Negate => word_with_room(tokens, at, Cue::Sign(Symbol::Minus), below),
        Prefix::IntegerOf => word_of(tokens, at, Keyword::Integer, below),
        Prefix::DecimalOf => word_of(tokens, at, Keyword::Decimal, below),
        Prefix::MoneyOf => word_of(tokens, at, Keyword::Money, below),
        Prefix::RoundOf => word_with_room(tokens, at, Cue::Pair(DoubleKeyword::RoundOf), below),
        Prefix::GetYear => word_of(tokens, at, Keyword::GetYear, below),
        Prefix::GetMonth => word_of(tokens, at, Keyword::GetMonth, below),
        Prefix::GetDay => word_of(tokens, at, Keyword::GetDay, below),
        Prefix::NumberOf => word_with_room(tokens, at, Cue::Pair(DoubleKeyword::NumberOf), below),
    }
}

#[cycle(climbing)]
pub(crate) fn prefixed(
    alloc: Global,
    tokens: &[Token],
    at: usize,
    limits: Limits,
    prefix: Prefix,
) -> Read<Measured>
    requires { at ≤ length tokens.now }
    ensures gives { Gives (prefixes.prefixed (operand_to limits.below) limits.below limits.behind prefix)
        tokens.now at result }
    ensures low { IfOk result (λ read. read.0.height ≤ limits.below + 1) }
{
    let level = prefix_level(prefix);
    let (pos, at) = prefix_words(tokens, at, prefix, limits.below)?;
    let (inner, at) = operand(alloc, tokens, at, limits.below, limits.behind, level)?;
    let node = Node::Prefixed(prefix, pos, inner.node);
    Ok((
        ending(
            alloc,
            level,
            inner.height,
            inner.strength,
            inner.in_match,
            node,
        )?,
        at,
    ))
}

#[cycle(climbing)]
pub(crate) fn sum(alloc: Global, tokens: &[Token], at: usize, limits: Limits) -> Read<Measured>
    requires { at ≤ length tokens.now }
    ensures gives { Gives (prefixes.sum (operand_to limits.below) limits.below limits.behind) tokens.now at result }
    ensures low { IfOk result (λ read. read.0.height ≤ limits.below + 1) }
{
    let (pos, at) = word(tokens, at, Cue::Word(Keyword::Sum))?;
    let (ty, at) = a_type(alloc, tokens, at)?;
    let (_, at) = word(tokens, at, Cue::Word(Keyword::Of))?;
    let (inner, at) = operand(alloc, tokens, at, limits.below, limits.behind, 8)?;
    let ty = Boxed::new(alloc, ty)?;
    let node = Node::Sum(pos, ty, inner.node);
    Ok((
        ending(alloc, 8, inner.height, inner.strength, inner.in_match, node)?,
        at,
    ))
}
