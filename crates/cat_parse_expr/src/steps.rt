// What goes on behind a whole expression: an operator, a field, a test.
ghost use Rattle.std.specs.Prelude.{◌≡◌, ◌<◌, ◌≤◌, ◌+◌, length, drop, IfOk};
ghost use Rattle.cat_parse_expr.specs.Climbing.{operand as operand_to};
ghost use Rattle.cat_parse_expr.specs.Steps as spec;
ghost use Rattle.cat_parse_expr.specs.Openings.{follow_at as next_follow};
ghost use Rattle.cat_parse_expr.specs.Parts.{is_sign};
ghost use Rattle.cat_parse_expr.specs.Places.{Gives};
ghost use Rattle.cat_parse_expr.specs.Reader.{heads_second, with_room};
ghost use Rattle.cat_parse_expr.specs.Cues as cues;

use crate::behind::Behind;
use crate::cases::case_from;
use crate::climbing::{nothing_at, operand};
use crate::cue::Cue;
use crate::follow::{Follow, follow_at};
use crate::levels::{left_level, operator_level};
use crate::limits::Limits;
use crate::measured::{Measured, closed, ending};
use crate::miss::{Read, behind_whole, broken_at};
use crate::words::{any_pos, is_second, lower_with_room, upper_with_room, word};
use cat_lex::{DoubleKeyword, Symbol, Token};
use cat_pos::{Boxed, Pos};
use cat_tree::{CaseName, Node, Operator};
use std::alloc::Global;

/// Whether what follows are the arms of an outer match, and no case.
fn ends_test(tokens: &[Token], at: usize, behind: Behind) -> bool
    ensures { result ≡ spec.ends_test behind (drop at tokens.now) }
{
    match behind {
        Behind::Pattern => is_second(tokens, at, Cue::Sign(Symbol::MinusMinus)),
        _ => false,
    }
}

/// Whether an expression of that strength goes on.
pub(crate) fn goes_on(tokens: &[Token], at: usize, limits: Limits, strength: u32) -> bool
    ensures { result ≡ spec.goes_so limits.behind limits.level strength (next_follow (drop at tokens.now))
        (drop at tokens.now) }
{
    match follow_at(tokens, at) {
        Follow::Operated(operator) => {
            limits.level <= operator_level(operator) && left_level(operator) <= strength
        }
        Follow::Dotted => 9 <= strength,
        Follow::Tests => {
            limits.level <= 4 && (5 <= strength && !ends_test(tokens, at, limits.behind))
        }
        Follow::Other => false,
    }
}

/// How high a part may be beside what was read: not at all where that is too high already.
fn room_beside(below: u16, left: &Measured) -> u16
    ensures value { result ≡ spec.room_beside below left.now }
    ensures low { 0 < result → left.now.height ≤ below }
{
    if left.height <= u32::from(below) {
        below
    } else {
        0
    }
}

/// The right operand of what was read.
#[cycle(climbing)]
fn beside(
    alloc: Global,
    tokens: &[Token],
    at: usize,
    limits: Limits,
    level: u32,
    left: &Measured,
) -> Read<Measured>
    requires { at ≤ length tokens.now }
    ensures gives { Gives (spec.beside (operand_to limits.below) limits.below left.now limits.behind level)
        tokens.now at result }
    ensures low { IfOk result (λ read. (read.0.height ≤ limits.below) × (left.now.height ≤ limits.below)) }
{
    if left.height <= u32::from(limits.below) {
        return operand(alloc, tokens, at, limits.below, limits.behind, level);
    }
    nothing_at(tokens, at, level)
}

#[cycle(climbing)]
fn operated(
    alloc: Global,
    tokens: &[Token],
    at: usize,
    limits: Limits,
    left: Measured,
    operator: Operator,
) -> Read<Measured>
    requires { at ≤ length tokens.now }
    ensures gives { Gives (spec.operated (operand_to limits.below) limits.below limits.behind left operator)
        tokens.now at result }
    ensures low { IfOk result (λ read. read.0.height ≤ limits.below + 1) }
    ensures further { IfOk result (λ read. at < read.1) }
{
    let level = operator_level(operator);
    let (pos, at) = any_pos(tokens, at)?;
    let (right, at) = beside(alloc, tokens, at, limits, level + 1, &left)?;
    let tallest = left.height.max(right.height);
    let node = Node::Binary(operator, pos, left.node, right.node);
    Ok((
        ending(alloc, level, tallest, right.strength, right.in_match, node)?,
        at,
    ))
}

fn selected(
    alloc: Global,
    tokens: &[Token],
    at: usize,
    below: u16,
    left: Measured,
) -> Read<Measured>
    requires { at ≤ length tokens.now }
    ensures gives { Gives (spec.selected (operand_to below) below left) tokens.now at result }
    ensures low { IfOk result (λ read. read.0.height ≤ below + 1) }
    ensures further { IfOk result (λ read. at < read.1) }
{
    let (_, at) = word(tokens, at, Cue::Sign(Symbol::Dot))?;
    let (name, at) = lower_with_room(alloc, tokens, at, room_beside(below, &left))?;
    let node = Node::Field(left.node, name);
    Ok((closed(alloc, 9, left.height, node)?, at))
}

/// The case for which an expression is tested.
fn tested_case(alloc: Global, tokens: &[Token], at: usize, room: u16) -> Read<(Pos, CaseName)>
    requires { at ≤ length tokens.now }
    ensures gives { Gives (spec.tested_case room) tokens.now at result }
    ensures further { IfOk result (λ read. at < read.1) }
    ensures roomy { IfOk result (λ read. 0 < room) }
{
    let (pos, at) = word(tokens, at, Cue::Pair(DoubleKeyword::WithPattern))?;
    let (name, at) = upper_with_room(alloc, tokens, at, room)?;
    let (case, at) = behind_whole(case_from(alloc, tokens, at, name), at)?;
    Ok(((pos, case), at))
}

fn tested(alloc: Global, tokens: &[Token], at: usize, below: u16, left: Measured) -> Read<Measured>
    requires { at ≤ length tokens.now }
    ensures gives { Gives (spec.tested (operand_to below) below left) tokens.now at result }
    ensures low { IfOk result (λ read. read.0.height ≤ below + 1) }
    ensures further { IfOk result (λ read. at < read.1) }
{
    let ((pos, case), at) = tested_case(alloc, tokens, at, room_beside(below, &left))?;
    let case = Boxed::new(alloc, case)?;
    let node = Node::Test(left.node, pos, case);
    Ok((closed(alloc, 4, left.height, node)?, at))
}

/// What was read, with one step more.
#[cycle(climbing)]
pub(crate) fn step(
    alloc: Global,
    tokens: &[Token],
    at: usize,
    limits: Limits,
    left: Measured,
) -> Read<Measured>
    requires { at ≤ length tokens.now }
    ensures gives { Gives (spec.step (operand_to limits.below) limits.below limits.behind left) tokens.now at result }
    ensures low { IfOk result (λ read. read.0.height ≤ limits.below + 1) }
    ensures further { IfOk result (λ read. at < read.1) }
{
    match follow_at(tokens, at) {
        Follow::Operated(operator) => {
            behind_whole(operated(alloc, tokens, at, limits, left, operator), at)
        }
        Follow::Dotted => behind_whole(selected(alloc, tokens, at, limits.below, left), at),
        Follow::Tests => behind_whole(tested(alloc, tokens, at, limits.below, left), at),
        Follow::Other => behind_whole(Err(broken_at(at)), at),
    }
}
