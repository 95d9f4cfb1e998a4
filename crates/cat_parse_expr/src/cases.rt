// Names, calls, cases and structures.
ghost use Rattle.std.specs.Prelude.{◌≡◌, ◌≤◌, ◌+◌, length, drop, IfOk};
ghost use Rattle.cat_parse_expr.specs.Climbing.{operand as operand_to};
ghost use Rattle.cat_parse_expr.specs.Cases as cased;
ghost use Rattle.cat_parse_expr.specs.Arms as arms;
ghost use Rattle.cat_parse_expr.specs.Places.{Gives};

use crate::climbing::operand;
use crate::cue::Cue;
use crate::limits::Limits;
use crate::listed::{arguments, fields, next_field, no_fields};
use crate::measured::{Measured, closed, ending, leaf};
use crate::miss::{Read, behind_whole};
use crate::words::{is_lower, is_next, lower, lower_with_room, upper, word};
use cat_lex::{Keyword, Symbol, Token};
use cat_pos::Boxed;
use cat_tree::{CaseName, Name, Node};
use std::alloc::Global;

/// The case of an enumeration whose word was read, or that word alone.
pub(crate) fn case_from(alloc: Global, tokens: &[Token], at: usize, first: Name) -> Read<CaseName>
    requires { at ≤ length tokens.now }
    ensures { Gives (arms.case_from first) tokens.now at result }
{
    if !is_next(tokens, at, Cue::Sign(Symbol::Dot)) {
        return Ok((CaseName::Bare(first), at));
    }
    let (_, at) = word(tokens, at, Cue::Sign(Symbol::Dot))?;
    let (case, at) = upper(alloc, tokens, at)?;
    let owner = Boxed::new(alloc, first)?;
    let case = Boxed::new(alloc, case)?;
    Ok((CaseName::Qualified(owner, case), at))
}

#[cycle(climbing)]
fn called(alloc: Global, tokens: &[Token], at: usize, below: u16, function: Name) -> Read<Measured>
    requires { at ≤ length tokens.now }
    ensures gives { Gives (cased.called (operand_to below) below function) tokens.now at result }
    ensures low { IfOk result (λ read. read.0.height ≤ below + 1) }
{
    let (_, at) = word(tokens, at, Cue::Word(Keyword::Of))?;
    let (found, at) = arguments(alloc, tokens, at, below)?;
    let function = Boxed::new(alloc, function)?;
    let node = Node::Call(function, found.nodes);
    Ok((closed(alloc, 8, found.tallest, node)?, at))
}

/// A name, or a call of the function that has it.
#[cycle(climbing)]
pub(crate) fn name(alloc: Global, tokens: &[Token], at: usize, limits: Limits) -> Read<Measured>
    requires { at ≤ length tokens.now }
    ensures gives { Gives (cased.name (operand_to limits.below) limits.below limits.level) tokens.now at result }
    ensures low { IfOk result (λ read. read.0.height ≤ limits.below + 1) }
{
    let (name, at) = lower(alloc, tokens, at)?;
    if limits.level <= 8 {
        if is_next(tokens, at, Cue::Word(Keyword::Of)) {
            return behind_whole(called(alloc, tokens, at, limits.below, name), at);
        }
    }
    Ok((leaf(alloc, Node::Name(name))?, at))
}

#[cycle(climbing)]
fn content(
    alloc: Global,
    tokens: &[Token],
    at: usize,
    limits: Limits,
    case: CaseName,
) -> Read<Measured>
    requires { at ≤ length tokens.now }
    ensures gives { Gives (cased.content (operand_to limits.below) limits.below limits.behind case)
        tokens.now at result }
    ensures low { IfOk result (λ read. read.0.height ≤ limits.below + 1) }
{
    let (_, at) = word(tokens, at, Cue::Word(Keyword::Content))?;
    let (inner, at) = operand(alloc, tokens, at, limits.below, limits.behind, 8)?;
    let node = Node::Content(case, inner.node);
    Ok((
        ending(alloc, 8, inner.height, inner.strength, inner.in_match, node)?,
        at,
    ))
}

/// A case with its content, or alone.
#[cycle(climbing)]
fn case_content(
    alloc: Global,
    tokens: &[Token],
    at: usize,
    limits: Limits,
    case: CaseName,
) -> Read<Measured>
    requires { at ≤ length tokens.now }
    ensures gives { Gives (cased.case_content (operand_to limits.below) limits.below limits.behind limits.level case)
        tokens.now at result }
    ensures low { IfOk result (λ read. read.0.height ≤ limits.below + 1) }
{
    if limits.level <= 8 {
        if is_next(tokens, at, Cue::Word(Keyword::Content)) {
            return behind_whole(content(alloc, tokens, at, limits, case), at);
        }
    }
    Ok((leaf(alloc, Node::Case(case))?, at))
}

#[cycle(climbing)]
fn structure(alloc: Global, tokens: &[Token], at: usize, below: u16, owner: Name) -> Read<Measured>
    requires { at ≤ length tokens.now }
    ensures gives { Gives (cased.structure (operand_to below) below owner) tokens.now at result }
    ensures low { IfOk result (λ read. read.0.height ≤ below + 1) }
{
    let (_, at) = word(tokens, at, Cue::Sign(Symbol::LeftBrace))?;
    let (first, at) = next_field(alloc, tokens, at, below, no_fields(alloc))?;
    let (found, at) = fields(alloc, tokens, at, below, first)?;
    let (_, at) = word(tokens, at, Cue::Sign(Symbol::RightBrace))?;
    let owner = Boxed::new(alloc, owner)?;
    let node = Node::Structure(owner, found.values);
    Ok((closed(alloc, 9, found.tallest, node)?, at))
}

/// The field of a case, where there is room for it.
fn case_field(alloc: Global, tokens: &[Token], at: usize, below: u16, owner: Name) -> Read<Measured>
    requires { at ≤ length tokens.now }
    ensures gives { Gives (cased.case_field (operand_to below) below owner) tokens.now at result }
    ensures low { IfOk result (λ read. read.0.height ≤ below + 1) }
{
    let (field, at) = lower_with_room(alloc, tokens, at, below)?;
    let base = Boxed::new(alloc, Node::Case(CaseName::Bare(owner)))?;
    Ok((closed(alloc, 9, 1, Node::Field(base, field))?, at))
}

#[cycle(climbing)]
fn dotted(alloc: Global, tokens: &[Token], at: usize, limits: Limits, owner: Name) -> Read<Measured>
    requires { at ≤ length tokens.now }
    ensures gives { Gives (cased.dotted (operand_to limits.below) limits.below limits.behind limits.level owner)
        tokens.now at result }
    ensures low { IfOk result (λ read. read.0.height ≤ limits.below + 1) }
{
    let (_, at) = word(tokens, at, Cue::Sign(Symbol::Dot))?;
    if is_lower(tokens, at) {
        return case_field(alloc, tokens, at, limits.below, owner);
    }
    let (case, at) = upper(alloc, tokens, at)?;
    let owner = Boxed::new(alloc, owner)?;
    let case = Boxed::new(alloc, case)?;
    let case = CaseName::Qualified(owner, case);
    case_content(alloc, tokens, at, limits, case)
}

/// What the word of a case or of a structure begins.
#[cycle(climbing)]
pub(crate) fn case(alloc: Global, tokens: &[Token], at: usize, limits: Limits) -> Read<Measured>
    requires { at ≤ length tokens.now }
    ensures gives { Gives (cased.case (operand_to limits.below) limits.below limits.behind limits.level)
        tokens.now at result }
    ensures low { IfOk result (λ read. read.0.height ≤ limits.below + 1) }
{
    let (name, at) = upper(alloc, tokens, at)?;
    if is_next(tokens, at, Cue::Sign(Symbol::Dot)) {
        return behind_whole(dotted(alloc, tokens, at, limits, name), at);
    }
    if is_next(tokens, at, Cue::Sign(Symbol::LeftBrace)) {
        return behind_whole(structure(alloc, tokens, at, limits.below, name), at);
    }
    let case = CaseName::Bare(name);
    case_content(alloc, tokens, at, limits, case)
}
