// Forms: choices, and what goes through a list.
ghost use Rattle.std.specs.Prelude.{◌≡◌, ◌<◌, ◌≤◌, ◌+◌, length, drop, IfOk};
ghost use Rattle.cat_parse_expr.specs.Climbing.{operand as operand_to};
ghost use Rattle.cat_parse_expr.specs.Forms as forms;
ghost use Rattle.cat_parse_expr.specs.Places.{Gives};

use crate::behind::Behind;
use crate::climbing::operand;
use crate::cue::Cue;
use crate::limits::Limits;
use crate::listed::inner;
use crate::measured::{Measured, form};
use crate::miss::Read;
use crate::words::{lower, word, word_with_room};
use cat_lex::{DoubleKeyword, Keyword, Token};
use cat_pos::{Boxed, Pos};
use cat_tree::{Accumulation, Each, Name, Node};
use std::alloc::{AllocError, Global};

#[cycle(climbing)]
pub(crate) fn choice(alloc: Global, tokens: &[Token], at: usize, limits: Limits) -> Read<Measured>
    requires { at ≤ length tokens.now }
    ensures gives { Gives (forms.choice (operand_to limits.below) limits.below limits.behind) tokens.now at result }
    ensures low { IfOk result (λ read. read.0.height ≤ limits.below + 1) }
{
    let (pos, at) = word_with_room(tokens, at, Cue::Word(Keyword::If), limits.below)?;
    let (condition, at) = inner(alloc, tokens, at, limits.below, Behind::Other)?;
    let (_, at) = word(tokens, at, Cue::Word(Keyword::Then))?;
    let (then, at) = inner(alloc, tokens, at, limits.below, Behind::Other)?;
    let (_, at) = word(tokens, at, Cue::Word(Keyword::Else))?;
    let (last, at) = operand(alloc, tokens, at, limits.below, limits.behind, 0)?;
    let tallest = condition.height.max(then.height).max(last.height);
    let node = Node::If(pos, condition.node, then.node, last.node);
    Ok((form(alloc, tallest, last.in_match, node)?, at))
}

fn each_cue(each: Each) -> Cue
    ensures { result ≡ forms.each_cue each }
{
    match each {
        Each::ForAll => Cue::Pair(DoubleKeyword::ForAll),
        Each::Exists => Cue::Word(Keyword::Exists),
        Each::MapEach => Cue::Pair(DoubleKeyword::MapEach),
        Each::ListOf => Cue::Pair(DoubleKeyword::ListOf),
    }
}

fn body_cue(each: Each) -> Cue
    ensures { result ≡ forms.body_cue each }
{
    match each {
        Each::ForAll => Cue::Pair(DoubleKeyword::WeHave),
        Each::Exists => Cue::Pair(DoubleKeyword::SuchThat),
        Each::MapEach => Cue::Word(Keyword::To),
        Each::ListOf => Cue::Pair(DoubleKeyword::SuchThat),
    }
}

/// The name that goes through a list, and the list.
#[cycle(climbing)]
fn among(alloc: Global, tokens: &[Token], at: usize, below: u16) -> Read<(Name, Measured)>
    requires { at ≤ length tokens.now }
    ensures gives { Gives (forms.among (operand_to below) below) tokens.now at result }
    ensures low { IfOk result (λ read. read.0.1.height ≤ below) }
{
    let (name, at) = lower(alloc, tokens, at)?;
    let (_, at) = word(tokens, at, Cue::Word(Keyword::Among))?;
    let (list, at) = inner(alloc, tokens, at, below, Behind::Other)?;
    Ok(((name, list), at))
}

#[cycle(climbing)]
pub(crate) fn over_each(
    alloc: Global,
    tokens: &[Token],
    at: usize,
    limits: Limits,
    each: Each,
) -> Read<Measured>
    requires { at ≤ length tokens.now }
    ensures gives { Gives (forms.over_each (operand_to limits.below) limits.below limits.behind each)
        tokens.now at result }
    ensures low { IfOk result (λ read. read.0.height ≤ limits.below + 1) }
{
    let (pos, at) = word(tokens, at, each_cue(each))?;
    let ((name, list), at) = among(alloc, tokens, at, limits.below)?;
    let (_, at) = word(tokens, at, body_cue(each))?;
    let (body, at) = operand(alloc, tokens, at, limits.below, limits.behind, 0)?;
    let tallest = list.height.max(body.height);
    let name = Boxed::new(alloc, name)?;
    let node = Node::Each(each, pos, name, list.node, body.node);
    Ok((form(alloc, tallest, body.in_match, node)?, at))
}

/// What is combined before all elements, with its name.
#[cycle(climbing)]
fn initially(alloc: Global, tokens: &[Token], at: usize, below: u16) -> Read<(Name, Measured)>
    requires { at ≤ length tokens.now }
    ensures gives { Gives (forms.initially (operand_to below) below) tokens.now at result }
    ensures low { IfOk result (λ read. read.0.1.height ≤ below) }
{
    let (_, at) = word(tokens, at, Cue::Word(Keyword::In))?;
    let (name, at) = lower(alloc, tokens, at)?;
    let (_, at) = word(tokens, at, Cue::Word(Keyword::Initially))?;
    let (start, at) = inner(alloc, tokens, at, below, Behind::Other)?;
    Ok(((name, start), at))
}

/// `combine` with its parts.
fn combination(
    alloc: Global,
    pos: Pos,
    element: Name,
    sum: Name,
    parts: (Measured, Measured, Measured),
) -> Result<Measured, AllocError>
    requires { (parts.0.height < 65536) × (parts.1.height < 65536) × (parts.2.height < 65536) }
    ensures { IfOk result (λ made. made ≡ forms.combination pos element sum parts.0 parts.1 parts.2) }
{
    let (list, start, body) = parts;
    let tallest = list.height.max(start.height).max(body.height);
    let accumulation = Boxed::new(alloc, Accumulation { pos, element, sum })?;
    let node = Node::Combine(accumulation, list.node, start.node, body.node);
    form(alloc, tallest, body.in_match, node)
}

#[cycle(climbing)]
pub(crate) fn combined(alloc: Global, tokens: &[Token], at: usize, limits: Limits) -> Read<Measured>
    requires { at ≤ length tokens.now }
    ensures gives { Gives (forms.combined (operand_to limits.below) limits.below limits.behind) tokens.now at result }
    ensures low { IfOk result (λ read. read.0.height ≤ limits.below + 1) }
{
    let (pos, at) = word(tokens, at, Cue::Pair(DoubleKeyword::CombineAll))?;
    let ((element, list), at) = among(alloc, tokens, at, limits.below)?;
    let ((sum, start), at) = initially(alloc, tokens, at, limits.below)?;
    let (_, at) = word(tokens, at, Cue::Word(Keyword::With))?;
    let (body, at) = operand(alloc, tokens, at, limits.below, limits.behind, 0)?;
    Ok((
        combination(alloc, pos, element, sum, (list, start, body))?,
        at,
    ))
}
