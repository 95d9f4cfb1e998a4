// Lines of scope blocks: definitions, rules, assertions and roundings.
ghost use Rattle.std.specs.Prelude.{◌≡◌, ◌≤◌, length};
ghost use Rattle.cat_lex.specs.declared.words.Keyword.TheVariants as key;
ghost use Rattle.cat_parse.specs.Declarations.{key_word};
ghost use Rattle.cat_parse.specs.Leads as leads;
ghost use Rattle.cat_parse_expr.specs.Reader.{◌⨟◌, pure};
ghost use Rattle.cat_parse.specs.Many.{both, optional};
ghost use Rattle.cat_parse.specs.Tails as tails;
ghost use Rattle.cat_parse.specs.Uses as spec;
ghost use Rattle.cat_tree.specs.declared.program.Use.TheVariants as uses;
ghost use Rattle.cat_parse_expr.specs.Places.{Gives};
ghost use Rattle.cat_parse.specs.Expression.{expression};

use crate::expression::expression;
use crate::heading::{lead, target};
use cat_lex::{DoubleKeyword, Keyword, Token};
use cat_parse_expr::{Cue, Read, is_next, word};
use cat_pos::Pos;
use cat_tree::{Fulfilled, Node, TargetName, Use};
use std::alloc::Global;

/// The condition of a definition or a rule, with the word behind it, where it is there.
fn guard_if(alloc: Global, tokens: &[Token], at: usize) -> Read<Option<Node>>
    requires { at ≤ length tokens.now }
    ensures { Gives (optional tails.is_under (tails.guard expression)) tokens.now at result }
{
    if !is_next(tokens, at, Cue::Pair(DoubleKeyword::UnderCondition)) {
        return Ok((None, at));
    }
    let (_, at) = word(tokens, at, Cue::Pair(DoubleKeyword::UnderCondition))?;
    let (condition, at) = expression(alloc, tokens, at)?;
    let (_, at) = word(tokens, at, Cue::Word(Keyword::Consequence))?;
    Ok((Some(condition), at))
}

/// Whether a rule says yes or no.
fn fulfilled(tokens: &[Token], at: usize) -> Read<Fulfilled>
    requires { at ≤ length tokens.now }
    ensures { Gives tails.whether_fulfilled tokens.now at result }
{
    if is_next(tokens, at, Cue::Word(Keyword::Not)) {
        let (_, at) = word(tokens, at, Cue::Word(Keyword::Not))?;
        let (_, at) = word(tokens, at, Cue::Word(Keyword::Fulfilled))?;
        return Ok((Fulfilled::No, at));
    }
    let (_, at) = word(tokens, at, Cue::Word(Keyword::Fulfilled))?;
    Ok((Fulfilled::Yes, at))
}

/// The value of a definition, behind its word.
fn value(alloc: Global, tokens: &[Token], at: usize) -> Read<Node>
    requires { at ≤ length tokens.now }
    ensures { Gives (key_word key.Equals ⨟ λ q. expression) tokens.now at result }
{
    let (_, at) = word(tokens, at, Cue::Word(Keyword::Equals))?;
    expression(alloc, tokens, at)
}

/// A definition without its lead.
fn defined(
    alloc: Global,
    tokens: &[Token],
    at: usize,
) -> Read<(Pos, TargetName, Option<Node>, Node)>
    requires { at ≤ length tokens.now }
    ensures { Gives (tails.defined expression) tokens.now at result }
{
    let (pos, at) = word(tokens, at, Cue::Word(Keyword::Definition))?;
    let (target, at) = target(alloc, tokens, at)?;
    let (condition, at) = guard_if(alloc, tokens, at)?;
    let (value, at) = value(alloc, tokens, at)?;
    Ok(((pos, target, condition, value), at))
}

/// A rule without its lead.
fn ruled(
    alloc: Global,
    tokens: &[Token],
    at: usize,
) -> Read<(Pos, TargetName, Option<Node>, Fulfilled)>
    requires { at ≤ length tokens.now }
    ensures { Gives (tails.ruled expression) tokens.now at result }
{
    let (pos, at) = word(tokens, at, Cue::Word(Keyword::Rule))?;
    let (target, at) = target(alloc, tokens, at)?;
    let (condition, at) = guard_if(alloc, tokens, at)?;
    let (fulfilled, at) = fulfilled(tokens, at)?;
    Ok(((pos, target, condition, fulfilled), at))
}

/// A definition or a rule.
fn led(alloc: Global, tokens: &[Token], at: usize) -> Read<Use>
    requires { at ≤ length tokens.now }
    ensures { Gives (both leads.lead (tails.tail expression) ⨟ λ x. pure (tails.use_of x)) tokens.now at result }
{
    let (lead, at) = lead(alloc, tokens, at)?;
    if is_next(tokens, at, Cue::Word(Keyword::Rule)) {
        let ((pos, target, condition, fulfilled), at) = ruled(alloc, tokens, at)?;
        return Ok((Use::Rule(lead, pos, target, condition, fulfilled), at));
    }
    let ((pos, target, condition, value), at) = defined(alloc, tokens, at)?;
    Ok((Use::Definition(lead, pos, target, condition, value), at))
}

fn assertion(alloc: Global, tokens: &[Token], at: usize) -> Read<Use>
    requires { at ≤ length tokens.now }
    ensures { Gives (spec.asserted expression ⨟ λ x. pure (uses.Assertion x.0 x.1)) tokens.now at result }
{
    let (pos, at) = word(tokens, at, Cue::Word(Keyword::Assertion))?;
    let (asserted, at) = expression(alloc, tokens, at)?;
    Ok((Use::Assertion(pos, asserted), at))
}

/// Whether dates are rounded up.
fn rounds_up(tokens: &[Token], at: usize) -> Read<bool>
    requires { at ≤ length tokens.now }
    ensures { Gives spec.direction tokens.now at result }
{
    if is_next(tokens, at, Cue::Word(Keyword::Increasing)) {
        let (_, at) = word(tokens, at, Cue::Word(Keyword::Increasing))?;
        return Ok((true, at));
    }
    let (_, at) = word(tokens, at, Cue::Word(Keyword::Decreasing))?;
    Ok((false, at))
}

fn rounding(tokens: &[Token], at: usize) -> Read<Use>
    requires { at ≤ length tokens.now }
    ensures { Gives (spec.rounded ⨟ λ x. pure (uses.DateRound x.0 x.1)) tokens.now at result }
{
    let (pos, at) = word(tokens, at, Cue::Pair(DoubleKeyword::DateRound))?;
    let (up, at) = rounds_up(tokens, at)?;
    Ok((Use::DateRound(pos, up), at))
}

/// A line of a scope block.
pub(crate) fn line(alloc: Global, tokens: &[Token], at: usize) -> Read<Use>
    requires { at ≤ length tokens.now }
    ensures { Gives (spec.a_use expression) tokens.now at result }
{
    if is_next(tokens, at, Cue::Word(Keyword::Assertion)) {
        return assertion(alloc, tokens, at);
    }
    if is_next(tokens, at, Cue::Pair(DoubleKeyword::DateRound)) {
        return rounding(tokens, at);
    }
    led(alloc, tokens, at)
}
