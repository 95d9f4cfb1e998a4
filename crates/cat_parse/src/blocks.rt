// Scope blocks.
ghost use Rattle.std.specs.Prelude.{◌≡◌, ◌≤◌, length, drop};
ghost use Rattle.cat_parse.specs.Programs as programs;
ghost use Rattle.cat_parse_expr.specs.Reader.{heads};
ghost use Rattle.cat_parse.specs.Many.{many, optional};
ghost use Rattle.cat_parse.specs.Tails as tails;
ghost use Rattle.cat_parse.specs.Uses as uses;
ghost use Rattle.cat_parse_expr.specs.Places.{Gives};
ghost use Rattle.cat_parse.specs.Expression.{expression};

use crate::expression::expression;
use crate::laws::expressions_are_read_rightly;
use crate::lines::line;
use cat_lex::{DoubleKeyword, Keyword, Symbol, Token, TokenKind};
use cat_parse_expr::{Cue, Read, is_next, upper, word};
use cat_pos::List;
use cat_tree::{Block, Node, Use};
use std::alloc::Global;

/// The condition of a scope block, where it has one.
fn condition_if(alloc: Global, tokens: &[Token], at: usize) -> Read<Option<Node>>
    requires { at ≤ length tokens.now }
    ensures { Gives (optional tails.is_under (tails.condition expression)) tokens.now at result }
{
    if !is_next(tokens, at, Cue::Pair(DoubleKeyword::UnderCondition)) {
        return Ok((None, at));
    }
    let (_, at) = word(tokens, at, Cue::Pair(DoubleKeyword::UnderCondition))?;
    let (condition, at) = expression(alloc, tokens, at)?;
    Ok((Some(condition), at))
}

/// Whether a line of a scope block begins at the index.
fn is_line(tokens: &[Token], at: usize) -> bool
    ensures { result ≡ heads uses.is_use (drop at tokens.now) }
{
    match tokens.get(at) {
        Some(token) => match &token.kind {
            TokenKind::Word(Keyword::Label) => true,
            TokenKind::Word(Keyword::Exception) => true,
            TokenKind::Word(Keyword::Definition) => true,
            TokenKind::Word(Keyword::Rule) => true,
            TokenKind::Word(Keyword::Assertion) => true,
            TokenKind::Pair(DoubleKeyword::DateRound) => true,
            _ => false,
        },
        None => false,
    }
}

/// The lines of a scope block.
fn lines(alloc: Global, tokens: &[Token], at: usize) -> Read<List<Use>>
    requires { at ≤ length tokens.now }
    ensures { Gives (many uses.is_use (uses.a_use expression)) tokens.now at result }
{
    expressions_are_read_rightly();
    let mut lines = List::new(alloc);
    let mut place = at;
    while is_line(tokens, place) {
        let (found, next) = line(alloc, tokens, place)?;
        lines.push(found)?;
        place = next;
    }
    Ok((lines, place))
}

/// A scope block.
pub(crate) fn block(alloc: Global, tokens: &[Token], at: usize) -> Read<Block>
    requires { at ≤ length tokens.now }
    ensures { Gives (programs.block expression) tokens.now at result }
{
    let (pos, at) = word(tokens, at, Cue::Word(Keyword::Scope))?;
    let (name, at) = upper(alloc, tokens, at)?;
    let (condition, at) = condition_if(alloc, tokens, at)?;
    let (_, at) = word(tokens, at, Cue::Sign(Symbol::Colon))?;
    let (uses, at) = lines(alloc, tokens, at)?;
    Ok((
        Block {
            pos,
            name,
            condition,
            uses,
        },
        at,
    ))
}
