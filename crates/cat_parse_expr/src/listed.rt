// Elements, arguments and fields.
ghost use Rattle.std.specs.Prelude.{◌≡◌, ◌<◌, ◌≤◌, ◌+◌, length, drop, IfOk};
ghost use Rattle.cat_parse_expr.specs.Climbing.{operand as operand_to};
ghost use Rattle.cat_parse_expr.specs.Measures as measures;
ghost use Rattle.cat_parse_expr.specs.Parts as parts;
ghost use Rattle.cat_parse_expr.specs.Parts.{as_many};
ghost use Rattle.cat_parse_expr.specs.Places.{Gives};
ghost use Rattle.cat_parse_expr.specs.Reader.{hidden};

use crate::behind::Behind;
use crate::climbing::operand;
use crate::cue::Cue;
use crate::measured::{Measured, MeasuredFields, MeasuredNodes};
use crate::miss::{Read, behind_whole, hidden};
use crate::words::{is_next, lower, word};
use cat_lex::{Symbol, Token};
use cat_pos::List;
use cat_tree::{Name, SurfaceField};
use std::alloc::{AllocError, Global};

/// A part that a word follows, at any level.
#[cycle(climbing)]
pub(crate) fn inner(
    alloc: Global,
    tokens: &[Token],
    at: usize,
    below: u16,
    behind: Behind,
) -> Read<Measured>
    requires { at ≤ length tokens.now }
    ensures gives { Gives (hidden (operand_to below behind 0)) tokens.now at result }
    ensures low { IfOk result (λ read. read.0.height ≤ below) }
{
    hidden(operand(alloc, tokens, at, below, behind, 0))
}

/// The elements with one more.
fn with_element(elements: MeasuredNodes, element: Measured) -> Result<MeasuredNodes, AllocError>
    ensures { IfOk result (λ more. more ≡ measures.with_element elements element) }
{
    let MeasuredNodes { mut nodes, tallest } = elements;
    let tallest = tallest.max(element.height);
    nodes.push(element.node.into_inner())?;
    Ok(MeasuredNodes { nodes, tallest })
}

fn no_elements(alloc: Global) -> MeasuredNodes
    ensures { result ≡ measures.no_elements }
{
    MeasuredNodes {
        nodes: List::new(alloc),
        tallest: 0,
    }
}

#[cycle(climbing)]
fn next_element(
    alloc: Global,
    tokens: &[Token],
    at: usize,
    below: u16,
    before: MeasuredNodes,
) -> Read<MeasuredNodes>
    requires place { at ≤ length tokens.now }
    requires before { before.tallest ≤ below }
    ensures gives { Gives (parts.next_element (operand_to below) before) tokens.now at result }
    ensures low { IfOk result (λ read. read.0.tallest ≤ below) }
    ensures further { IfOk result (λ read. at < read.1) }
{
    let (_, at) = word(tokens, at, Cue::Sign(Symbol::Semicolon))?;
    let (element, at) = inner(alloc, tokens, at, below, Behind::Other)?;
    Ok((with_element(before, element)?, at))
}

#[cycle(climbing)]
fn next_elements(
    alloc: Global,
    tokens: &[Token],
    at: usize,
    below: u16,
    first: MeasuredNodes,
) -> Read<MeasuredNodes>
    requires place { at ≤ length tokens.now }
    requires first { first.tallest ≤ below }
    ensures gives { Gives (as_many parts.has_element (parts.next_element (operand_to below)) first)
        tokens.now at result }
    ensures low { IfOk result (λ read. read.0.tallest ≤ below) }
{
    let mut found = first;
    let mut place = at;
    while is_next(tokens, place, Cue::Sign(Symbol::Semicolon)) {
        let (more, next) = next_element(alloc, tokens, place, below, found)?;
        found = more;
        place = next;
    }
    Ok((found, place))
}

/// The elements of a list, of which there may be none.
#[cycle(climbing)]
pub(crate) fn elements(
    alloc: Global,
    tokens: &[Token],
    at: usize,
    below: u16,
) -> Read<MeasuredNodes>
    requires { at ≤ length tokens.now }
    ensures gives { Gives (parts.elements (operand_to below)) tokens.now at result }
    ensures low { IfOk result (λ read. read.0.tallest ≤ below) }
{
    if is_next(tokens, at, Cue::Sign(Symbol::RightBracket)) {
        return Ok((no_elements(alloc), at));
    }
    let (first, at) = inner(alloc, tokens, at, below, Behind::Other)?;
    let first = with_element(no_elements(alloc), first)?;
    next_elements(alloc, tokens, at, below, first)
}

#[cycle(climbing)]
fn behind_comma(
    alloc: Global,
    tokens: &[Token],
    at: usize,
    below: u16,
    before: MeasuredNodes,
) -> Read<MeasuredNodes>
    requires place { at ≤ length tokens.now }
    requires before { before.tallest ≤ below }
    ensures gives { Gives (parts.behind_comma (operand_to below) before) tokens.now at result }
    ensures low { IfOk result (λ read. read.0.tallest ≤ below) }
    ensures further { IfOk result (λ read. at < read.1) }
{
    let (_, at) = word(tokens, at, Cue::Sign(Symbol::Comma))?;
    let (argument, at) = operand(alloc, tokens, at, below, Behind::Other, 9)?;
    Ok((with_element(before, argument)?, at))
}

#[cycle(climbing)]
fn next_argument(
    alloc: Global,
    tokens: &[Token],
    at: usize,
    below: u16,
    before: MeasuredNodes,
) -> Read<MeasuredNodes>
    requires place { at ≤ length tokens.now }
    requires before { before.tallest ≤ below }
    ensures gives { Gives (parts.next_argument (operand_to below) before) tokens.now at result }
    ensures low { IfOk result (λ read. read.0.tallest ≤ below) }
    ensures further { IfOk result (λ read. at < read.1) }
{
    behind_whole(behind_comma(alloc, tokens, at, below, before), at)
}

#[cycle(climbing)]
fn next_arguments(
    alloc: Global,
    tokens: &[Token],
    at: usize,
    below: u16,
    first: MeasuredNodes,
) -> Read<MeasuredNodes>
    requires place { at ≤ length tokens.now }
    requires first { first.tallest ≤ below }
    ensures gives { Gives (as_many parts.has_argument (parts.next_argument (operand_to below)) first)
        tokens.now at result }
    ensures low { IfOk result (λ read. read.0.tallest ≤ below) }
{
    let mut found = first;
    let mut place = at;
    while is_next(tokens, place, Cue::Sign(Symbol::Comma)) {
        let (more, next) = next_argument(alloc, tokens, place, below, found)?;
        found = more;
        place = next;
    }
    Ok((found, place))
}

/// The arguments of a call, of which there is one at least.
#[cycle(climbing)]
pub(crate) fn arguments(
    alloc: Global,
    tokens: &[Token],
    at: usize,
    below: u16,
) -> Read<MeasuredNodes>
    requires { at ≤ length tokens.now }
    ensures gives { Gives (parts.arguments (operand_to below)) tokens.now at result }
    ensures low { IfOk result (λ read. read.0.tallest ≤ below) }
{
    let (first, at) = operand(alloc, tokens, at, below, Behind::Other, 9)?;
    let first = with_element(no_elements(alloc), first)?;
    next_arguments(alloc, tokens, at, below, first)
}

/// The fields with one more.
fn with_field(
    fields: MeasuredFields,
    name: Name,
    value: Measured,
) -> Result<MeasuredFields, AllocError>
    ensures { IfOk result (λ more. more ≡ measures.with_field fields name value) }
{
    let MeasuredFields {
        mut values,
        tallest,
    } = fields;
    let tallest = tallest.max(value.height);
    values.push(SurfaceField {
        name,
        value: value.node.into_inner(),
    })?;
    Ok(MeasuredFields { values, tallest })
}

/// No field yet.
pub(crate) fn no_fields(alloc: Global) -> MeasuredFields
    ensures { result ≡ measures.no_fields }
{
    MeasuredFields {
        values: List::new(alloc),
        tallest: 0,
    }
}

/// The fields with the next one.
#[cycle(climbing)]
pub(crate) fn next_field(
    alloc: Global,
    tokens: &[Token],
    at: usize,
    below: u16,
    before: MeasuredFields,
) -> Read<MeasuredFields>
    requires place { at ≤ length tokens.now }
    requires before { before.tallest ≤ below }
    ensures gives { Gives (parts.next_field (operand_to below) before) tokens.now at result }
    ensures low { IfOk result (λ read. read.0.tallest ≤ below) }
    ensures further { IfOk result (λ read. at < read.1) }
{
    let (_, at) = word(tokens, at, Cue::Sign(Symbol::MinusMinus))?;
    let (name, at) = lower(alloc, tokens, at)?;
    let (_, at) = word(tokens, at, Cue::Sign(Symbol::Colon))?;
    let (value, at) = inner(alloc, tokens, at, below, Behind::Field)?;
    Ok((with_field(before, name, value)?, at))
}

/// As many fields more as there are.
#[cycle(climbing)]
pub(crate) fn fields(
    alloc: Global,
    tokens: &[Token],
    at: usize,
    below: u16,
    first: MeasuredFields,
) -> Read<MeasuredFields>
    requires place { at ≤ length tokens.now }
    requires first { first.tallest ≤ below }
    ensures gives { Gives (parts.fields (operand_to below) first) tokens.now at result }
    ensures low { IfOk result (λ read. read.0.tallest ≤ below) }
{
    let mut found = first;
    let mut place = at;
    while is_next(tokens, place, Cue::Sign(Symbol::MinusMinus)) {
        let (more, next) = next_field(alloc, tokens, place, below, found)?;
        found = more;
        place = next;
    }
    Ok((found, place))
}
