// An expression of a program.
ghost use Rattle.std.specs.Prelude.{◌≡◌, ◌≤◌, length};
ghost use Rattle.cat_parse.specs.Expression.{expression};
ghost use Rattle.cat_parse_expr.specs.Places.{Gives};

use cat_lex::Token;
use cat_parse_expr::{Behind, Read, operand};
use cat_tree::{MOST_HEIGHT, Node};
use std::alloc::Global;

/// The expression at the index with the index after it, where no longer one has begun. It is refused where the
/// longer one breaks off, for no token that may follow an expression goes on with one.
#[tactic(auto, unfolding(crate::specs::Expression::expression_to))]
pub fn expression(alloc: Global, tokens: &[Token], at: usize) -> Read<Node>
    requires { at ≤ length tokens.now }
    ensures { Gives expression tokens.now at result }
{
    let (read, at) = operand(alloc, tokens, at, MOST_HEIGHT, Behind::Other, 0)?;
    Ok((read.node.into_inner(), at))
}
