// Parentheses, lists and calls of scopes.
ghost use Rattle.std.specs.Prelude.{◌≡◌, ◌≤◌, ◌+◌, length, drop, IfOk};
ghost use Rattle.cat_parse_expr.specs.Climbing.{operand as operand_to};
ghost use Rattle.cat_parse_expr.specs.Brackets as brackets;
ghost use Rattle.cat_parse_expr.specs.Places.{Gives};

use crate::behind::Behind;
use crate::cue::Cue;
use crate::listed::{elements, fields, inner, no_fields};
use crate::measured::{Measured, closed};
use crate::miss::Read;
use crate::words::{lower, upper, word, word_with_room};
use cat_lex::{DoubleKeyword, Keyword, Symbol, Token};
use cat_pos::{Boxed, Pos};
use cat_tree::{Name, Node};
use std::alloc::Global;

#[cycle(climbing)]
pub(crate) fn parens(alloc: Global, tokens: &[Token], at: usize, below: u16) -> Read<Measured>
    requires { at ≤ length tokens.now }
    ensures gives { Gives (brackets.parens (operand_to below) below) tokens.now at result }
    ensures low { IfOk result (λ read. read.0.height ≤ below + 1) }
{
    let (pos, at) = word_with_room(tokens, at, Cue::Sign(Symbol::LeftParen), below)?;
    let (inner, at) = inner(alloc, tokens, at, below, Behind::Other)?;
    let (_, at) = word(tokens, at, Cue::Sign(Symbol::RightParen))?;
    let node = Node::Parens(pos, inner.node);
    Ok((closed(alloc, 9, inner.height, node)?, at))
}

#[cycle(climbing)]
pub(crate) fn list(alloc: Global, tokens: &[Token], at: usize, below: u16) -> Read<Measured>
    requires { at ≤ length tokens.now }
    ensures gives { Gives (brackets.list (operand_to below) below) tokens.now at result }
    ensures low { IfOk result (λ read. read.0.height ≤ below + 1) }
{
    let (pos, at) = word(tokens, at, Cue::Sign(Symbol::LeftBracket))?;
    let (found, at) = elements(alloc, tokens, at, below)?;
    let (_, at) = word(tokens, at, Cue::Sign(Symbol::RightBracket))?;
    let node = Node::List(pos, found.nodes);
    Ok((closed(alloc, 9, found.tallest, node)?, at))
}

/// The scope that is called, and the brace before its input.
fn callee(alloc: Global, tokens: &[Token], at: usize) -> Read<(Pos, Name)>
    requires { at ≤ length tokens.now }
    ensures { Gives brackets.callee tokens.now at result }
{
    let (pos, at) = word(tokens, at, Cue::Pair(DoubleKeyword::OutputOf))?;
    let (scope, at) = upper(alloc, tokens, at)?;
    let (_, at) = word(tokens, at, Cue::Word(Keyword::With))?;
    let (_, at) = word(tokens, at, Cue::Sign(Symbol::LeftBrace))?;
    Ok(((pos, scope), at))
}

/// The brace behind the input, and the output that is taken.
fn output(alloc: Global, tokens: &[Token], at: usize) -> Read<Name>
    requires { at ≤ length tokens.now }
    ensures { Gives brackets.output tokens.now at result }
{
    let (_, at) = word(tokens, at, Cue::Sign(Symbol::RightBrace))?;
    let (_, at) = word(tokens, at, Cue::Sign(Symbol::Dot))?;
    lower(alloc, tokens, at)
}

#[cycle(climbing)]
pub(crate) fn scope_call(alloc: Global, tokens: &[Token], at: usize, below: u16) -> Read<Measured>
    requires { at ≤ length tokens.now }
    ensures gives { Gives (brackets.scope_call (operand_to below) below) tokens.now at result }
    ensures low { IfOk result (λ read. read.0.height ≤ below + 1) }
{
    let ((pos, scope), at) = callee(alloc, tokens, at)?;
    let (found, at) = fields(alloc, tokens, at, below, no_fields(alloc))?;
    let (output, at) = output(alloc, tokens, at)?;
    let scope = Boxed::new(alloc, scope)?;
    let values = Boxed::new(alloc, found.values)?;
    let output = Boxed::new(alloc, output)?;
    let node = Node::ScopeCall(pos, scope, values, output);
    Ok((closed(alloc, 9, found.tallest, node)?, at))
}
