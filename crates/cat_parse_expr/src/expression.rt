// Expressions at an index of a list of tokens.
ghost use Rattle.std.specs.Prelude.{◌≡◌, ◌≤◌, ℕ, List, length, take, drop, IfOk, IfErr, Some, Ok, Err};
ghost use Rattle.cat_lex.specs.declared.token.Token.{Token};
ghost use Rattle.cat_tree.specs.declared.expression.Node.{Node};
ghost use Rattle.cat_tree.specs.Limits.{most_height};
ghost use Rattle.cat_tree.specs.Spells.{Spells, IsFront};
ghost use Rattle.cat_parse_expr.specs.declared.behind.Behind.TheVariants.{Other};
ghost use Rattle.cat_parse_expr.specs.Causes.{HasCause, HasReachCause};
ghost use Rattle.cat_parse_expr.specs.Climbing as climbing;
ghost use Rattle.cat_parse_expr.specs.Fronts.{GoesUpTo};
ghost use Rattle.cat_parse_expr.specs.Places.{Gives};
ghost use Rattle.cat_parse_expr.specs.Reach.{Found, front_found, before, expression_reach, GivesReach};

use crate::behind::Behind;
use crate::climbing::operand;
use crate::measured::Measured;
use crate::miss::{Break, Miss, Read};
use crate::refusal::{ParseRefusal, refusal_at};
use cat_lex::Token;
use cat_tree::{MOST_HEIGHT, Node};
use std::alloc::Global;

/// What the tokens before the index read as, alone.
fn front(alloc: Global, tokens: &[Token], at: usize, end: usize) -> Read<Measured>
    requires order { at ≤ end }
    requires within { end ≤ length tokens.now }
    ensures { Gives (climbing.operand most_height Other 0) (take end tokens.now) at result }
{
    operand(alloc, &tokens[..end], at, MOST_HEIGHT, Behind::Other, 0)
}

/// The whole expression before the index, behind which something longer broke off: it is read once more.
fn whole(
    alloc: Global,
    tokens: &[Token],
    at: usize,
    broken: Break,
    end: usize,
) -> Result<Node, ParseRefusal>
    requires place { at ≤ length tokens.now }
    requires broken { Gives (climbing.operand most_height Other 0) tokens.now at (Err (Miss.Broken broken)) }
    requires whole { broken.whole ≡ Some end }
    ensures found { IfOk result (λ e. IsFront tokens.now at end e) }
    ensures read { IfOk result (λ e. (left : List Token) → front_found (climbing.operand most_height Other 0
        (before (drop end tokens.now) (drop at tokens.now))) (drop end tokens.now) left
        ≡ Found e (drop end tokens.now) left) }
    ensures memory { IfErr result (λ refusal. refusal ≡ ParseRefusal.Memory) }
{
    match front(alloc, tokens, at, end) {
        Ok((read, _)) => Ok(read.node.into_inner()),
        Err(Miss::Memory) => Err(ParseRefusal::Memory),
        Err(Miss::Broken(_)) => unreachable!(),
    }
}

/// The longest expression of height at most 256 that begins at the index, and the index after it. It
/// takes time in proportion to the tokens that it looks at.
pub fn expr(alloc: Global, tokens: &[Token], at: usize) -> Result<(Node, usize), ParseRefusal>
    requires { at ≤ length tokens.now }
    ensures found { IfOk result (λ read. IsFront tokens.now at read.1 read.0) }
    ensures longest { IfOk result (λ read. (e : Node) (next : ℕ) → IsFront tokens.now at next e → next ≤ read.1) }
    ensures cause { IfErr result (HasCause tokens.now at) }
{
    match operand(alloc, tokens, at, MOST_HEIGHT, Behind::Other, 0) {
        Ok((read, next)) => Ok((read.node.into_inner(), next)),
        Err(Miss::Memory) => Err(ParseRefusal::Memory),
        Err(Miss::Broken(broken)) => match broken.whole {
            Some(end) => Ok((whole(alloc, tokens, at, broken, end)?, end)),
            None => Err(refusal_at(broken)),
        },
    }
}

/// The same expression and index, and how far the tokens from there on begin an expression of any height.
/// Where only the height stops them, that is refused even behind an expression.
pub fn expr_reach(
    alloc: Global,
    tokens: &[Token],
    at: usize,
) -> Result<(Node, usize, usize), ParseRefusal>
    requires { at ≤ length tokens.now }
    ensures found { IfOk result (λ read. IsFront tokens.now at read.1 read.0) }
    ensures longest { IfOk result (λ read. (e : Node) (next : ℕ) → IsFront tokens.now at next e → next ≤ read.1) }
    ensures reach { IfOk result (λ read. GoesUpTo tokens.now at read.2) }
    ensures cause { IfErr result (HasReachCause tokens.now at) }
    ensures gives { GivesReach (expression_reach most_height (drop at tokens.now)) tokens.now result }
{
    match operand(alloc, tokens, at, MOST_HEIGHT, Behind::Other, 0) {
        Ok((read, next)) => Ok((read.node.into_inner(), next, next)),
        Err(Miss::Memory) => Err(ParseRefusal::Memory),
        Err(Miss::Broken(broken)) => {
            if broken.deep {
                return Err(ParseRefusal::TooDeep(broken.at));
            }
            match broken.whole {
                Some(end) => Ok((whole(alloc, tokens, at, broken, end)?, end, broken.at)),
                None => Err(ParseRefusal::Unexpected(broken.at)),
            }
        }
    }
}

/// A list of tokens spells at most one expression.
pub fn tokens_spell_one_expression()
    ensures { (a b : Node) (tokens : List Token) → Spells a tokens → Spells b tokens → a ≡ b }
{}
