// Matches, their arms and patterns.
ghost use Rattle.std.specs.Prelude.{◌≡◌, ◌<◌, ◌≤◌, ◌+◌, length, drop, IfOk};
ghost use Rattle.cat_parse_expr.specs.Climbing.{operand as operand_to};
ghost use Rattle.cat_parse_expr.specs.Forms as forms;
ghost use Rattle.cat_parse_expr.specs.Measures as measures;
ghost use Rattle.cat_parse_expr.specs.Arms as spec;
ghost use Rattle.cat_parse_expr.specs.Parts.{as_many};
ghost use Rattle.cat_parse_expr.specs.Places.{Gives};

use crate::behind::Behind;
use crate::cases::case_from;
use crate::climbing::operand;
use crate::cue::Cue;
use crate::limits::Limits;
use crate::listed::inner;
use crate::measured::{MatchArms, Measured, form};
use crate::miss::{Read, behind_whole};
use crate::words::{is_next, is_second_lower, lower, upper, word, word_with_room};
use cat_lex::{DoubleKeyword, Keyword, Symbol, Token};
use cat_pos::{Boxed, List};
use cat_tree::{Node, Pattern, SurfaceArm};
use std::alloc::{AllocError, Global};

/// A case, with the name of its content where it has one.
fn case_pattern(alloc: Global, tokens: &[Token], at: usize) -> Read<Pattern>
    requires { at ≤ length tokens.now }
    ensures { Gives spec.case_pattern tokens.now at result }
{
    let (name, at) = upper(alloc, tokens, at)?;
    let (case, at) = case_from(alloc, tokens, at, name)?;
    if !is_next(tokens, at, Cue::Word(Keyword::Of)) {
        return Ok((Pattern::Case(case, None), at));
    }
    let (_, at) = word(tokens, at, Cue::Word(Keyword::Of))?;
    let (content, at) = lower(alloc, tokens, at)?;
    Ok((Pattern::Case(case, Some(content)), at))
}

fn a_pattern(alloc: Global, tokens: &[Token], at: usize) -> Read<Pattern>
    requires { at ≤ length tokens.now }
    ensures { Gives spec.a_pattern tokens.now at result }
{
    if is_next(tokens, at, Cue::Word(Keyword::Anything)) {
        let (_, at) = word(tokens, at, Cue::Word(Keyword::Anything))?;
        return Ok((Pattern::Anything, at));
    }
    case_pattern(alloc, tokens, at)
}

/// What stands before the body of an arm.
fn arm_head(alloc: Global, tokens: &[Token], at: usize) -> Read<Pattern>
    requires { at ≤ length tokens.now }
    ensures gives { Gives spec.arm_head tokens.now at result }
    ensures further { IfOk result (λ read. at < read.1) }
{
    let (_, at) = word(tokens, at, Cue::Sign(Symbol::MinusMinus))?;
    let (pattern, at) = a_pattern(alloc, tokens, at)?;
    let (_, at) = word(tokens, at, Cue::Sign(Symbol::Colon))?;
    Ok((pattern, at))
}

/// The arms with one more.
fn with_arm(arms: MatchArms, pattern: Pattern, body: Measured) -> Result<MatchArms, AllocError>
    ensures { IfOk result (λ more. more ≡ measures.with_arm arms pattern body) }
{
    let MatchArms {
        mut arms,
        tallest,
        in_match: _,
    } = arms;
    let tallest = tallest.max(body.height);
    let in_match = body.in_match;
    arms.push(SurfaceArm {
        pattern,
        body: body.node.into_inner(),
    })?;
    Ok(MatchArms {
        arms,
        tallest,
        in_match,
    })
}

fn no_arms(alloc: Global) -> MatchArms
    ensures { result ≡ measures.no_arms }
{
    MatchArms {
        arms: List::new(alloc),
        tallest: 0,
        in_match: false,
    }
}

#[cycle(climbing)]
fn next_arm(
    alloc: Global,
    tokens: &[Token],
    at: usize,
    limits: Limits,
    before: MatchArms,
) -> Read<MatchArms>
    requires place { at ≤ length tokens.now }
    requires before { before.tallest ≤ limits.below }
    ensures gives { Gives (spec.next_arm (operand_to limits.below) limits.behind before) tokens.now at result }
    ensures low { IfOk result (λ read. read.0.tallest ≤ limits.below) }
    ensures further { IfOk result (λ read. at < read.1) }
{
    let (pattern, at) = arm_head(alloc, tokens, at)?;
    let (body, at) = operand(alloc, tokens, at, limits.below, limits.behind, 0)?;
    Ok((with_arm(before, pattern, body)?, at))
}

/// Whether what follows is a field of an outer form, and no arm.
fn ends_arms(tokens: &[Token], at: usize, behind: Behind) -> bool
    ensures { result ≡ spec.ends_arms behind (drop at tokens.now) }
{
    match behind {
        Behind::Field => is_second_lower(tokens, at),
        _ => false,
    }
}

/// Whether another arm follows arms of which the last one ends in a match or not.
fn has_arm(tokens: &[Token], at: usize, behind: Behind, in_match: bool) -> bool
    ensures { result ≡ spec.has_arm_behind behind in_match (drop at tokens.now) }
{
    !in_match
        && (is_next(tokens, at, Cue::Sign(Symbol::MinusMinus)) && !ends_arms(tokens, at, behind))
}

/// An arm behind others, where those are a whole match.
#[cycle(climbing)]
fn further_arm(
    alloc: Global,
    tokens: &[Token],
    at: usize,
    limits: Limits,
    before: MatchArms,
) -> Read<MatchArms>
    requires place { at ≤ length tokens.now }
    requires before { before.tallest ≤ limits.below }
    ensures gives { Gives (spec.further_arm (operand_to limits.below) limits.behind before) tokens.now at result }
    ensures low { IfOk result (λ read. read.0.tallest ≤ limits.below) }
    ensures further { IfOk result (λ read. at < read.1) }
{
    behind_whole(next_arm(alloc, tokens, at, limits, before), at)
}

/// As many arms more as there are.
#[cycle(climbing)]
fn further_arms(
    alloc: Global,
    tokens: &[Token],
    at: usize,
    limits: Limits,
    first: MatchArms,
) -> Read<MatchArms>
    requires place { at ≤ length tokens.now }
    requires first { first.tallest ≤ limits.below }
    ensures gives { Gives (as_many (spec.has_arm limits.behind)
        (spec.further_arm (operand_to limits.below) limits.behind) first) tokens.now at result }
    ensures low { IfOk result (λ read. read.0.tallest ≤ limits.below) }
{
    let mut found = first;
    let mut place = at;
    while has_arm(tokens, place, limits.behind, found.in_match) {
        let (more, next) = further_arm(alloc, tokens, place, limits, found)?;
        found = more;
        place = next;
    }
    Ok((found, place))
}

/// The arms of a match, of which there is one at least.
#[cycle(climbing)]
fn arms(alloc: Global, tokens: &[Token], at: usize, limits: Limits) -> Read<MatchArms>
    requires { at ≤ length tokens.now }
    ensures gives { Gives (spec.arms (operand_to limits.below) limits.behind) tokens.now at result }
    ensures low { IfOk result (λ read. read.0.tallest ≤ limits.below) }
{
    let (first, at) = next_arm(alloc, tokens, at, limits, no_arms(alloc))?;
    further_arms(alloc, tokens, at, limits, first)
}

#[cycle(climbing)]
pub(crate) fn matched(alloc: Global, tokens: &[Token], at: usize, limits: Limits) -> Read<Measured>
    requires { at ≤ length tokens.now }
    ensures gives { Gives (forms.matched (operand_to limits.below) limits.below limits.behind) tokens.now at result }
    ensures low { IfOk result (λ read. read.0.height ≤ limits.below + 1) }
{
    let (pos, at) = word_with_room(tokens, at, Cue::Word(Keyword::Match), limits.below)?;
    let (value, at) = inner(alloc, tokens, at, limits.below, Behind::Pattern)?;
    let (_, at) = word(tokens, at, Cue::Pair(DoubleKeyword::WithPattern))?;
    let (found, at) = arms(alloc, tokens, at, limits)?;
    let tallest = value.height.max(found.tallest);
    let arms = Boxed::new(alloc, found.arms)?;
    let node = Node::Match(pos, value.node, arms);
    Ok((form(alloc, tallest, true, node)?, at))
}
