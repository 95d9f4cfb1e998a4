// Operands, and the operators behind them.
ghost use Rattle.std.specs.Prelude.{◌≡◌, ◌≤◌, ◌+◌, length, drop, IfOk};
ghost use Rattle.cat_parse_expr.specs.Climbing as spec;
ghost use Rattle.cat_parse_expr.specs.Steps as steps;
ghost use Rattle.cat_parse_expr.specs.Parts.{as_many};
ghost use Rattle.cat_parse_expr.specs.Places.{Gives};

use crate::behind::Behind;
use crate::brackets::{list, parens, scope_call};
use crate::cases::{case, name};
use crate::forms::{choice, combined, over_each};
use crate::limits::Limits;
use crate::literals::a_literal;
use crate::matches::matched;
use crate::measured::Measured;
use crate::miss::{Read, broken_at, too_high};
use crate::opening::{Opening, opening_at, stands};
use crate::prefixes::{prefixed, sum};
use crate::steps::{goes_on, step};
use cat_lex::Token;
use std::alloc::Global;

/// Nothing is read for the height, where an expression would begin.
pub(crate) fn nothing_at(tokens: &[Token], at: usize, level: u32) -> Read<Measured>
    requires { at ≤ length tokens.now }
    ensures { Gives (steps.nothing_at level) tokens.now at result }
{
    if stands(level, opening_at(tokens, at)) {
        return Err(too_high(at));
    }
    Err(broken_at(at))
}

/// What stands in front of all operators.
#[cycle(climbing)]
fn primary(alloc: Global, tokens: &[Token], at: usize, limits: Limits) -> Read<Measured>
    requires { at ≤ length tokens.now }
    ensures gives { Gives (spec.primary (spec.operand limits.below) limits.below limits.behind limits.level)
        tokens.now at result }
    ensures low { IfOk result (λ read. read.0.height ≤ limits.below + 1) }
{
    let opening = opening_at(tokens, at);
    if !stands(limits.level, opening) {
        return Err(broken_at(at));
    }
    match opening {
        Opening::Literal => a_literal(alloc, tokens, at),
        Opening::Name => name(alloc, tokens, at, limits),
        Opening::Case => case(alloc, tokens, at, limits),
        Opening::Parens => parens(alloc, tokens, at, limits.below),
        Opening::List => list(alloc, tokens, at, limits.below),
        Opening::ScopeCall => scope_call(alloc, tokens, at, limits.below),
        Opening::Prefixed(prefix) => prefixed(alloc, tokens, at, limits, prefix),
        Opening::Sum => sum(alloc, tokens, at, limits),
        Opening::If => choice(alloc, tokens, at, limits),
        Opening::Match => matched(alloc, tokens, at, limits),
        Opening::Each(each) => over_each(alloc, tokens, at, limits, each),
        Opening::Combine => combined(alloc, tokens, at, limits),
        Opening::Nothing => Err(broken_at(at)),
    }
}

/// What goes on behind an operand, for as long as it does.
#[cycle(climbing)]
fn climb(
    alloc: Global,
    tokens: &[Token],
    at: usize,
    limits: Limits,
    first: Measured,
) -> Read<Measured>
    requires place { at ≤ length tokens.now }
    requires first { first.height ≤ limits.below + 1 }
    ensures gives { Gives (as_many (steps.goes_on limits.behind limits.level)
        (steps.step (spec.operand limits.below) limits.below limits.behind) first) tokens.now at result }
    ensures low { IfOk result (λ read. read.0.height ≤ limits.below + 1) }
{
    let mut left = first;
    let mut place = at;
    while goes_on(tokens, place, limits, left.strength) {
        let (further, next) = step(alloc, tokens, place, limits, left)?;
        left = further;
        place = next;
    }
    Ok((left, place))
}

/// The longest expression of at most that height at that level, before what may follow it.
#[cycle(climbing)]
pub fn operand(
    alloc: Global,
    tokens: &[Token],
    at: usize,
    room: u16,
    behind: Behind,
    level: u32,
) -> Read<Measured>
    requires { at ≤ length tokens.now }
    ensures gives { Gives (spec.operand room behind level) tokens.now at result }
    ensures low { IfOk result (λ read. read.0.height ≤ room) }
{
    if room == 0 {
        return nothing_at(tokens, at, level);
    }
    let limits = Limits {
        below: room - 1,
        behind,
        level,
    };
    let (first, next) = primary(alloc, tokens, at, limits)?;
    climb(alloc, tokens, next, limits, first)
}
