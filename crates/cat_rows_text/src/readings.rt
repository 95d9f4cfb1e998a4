//! What the library reads of a list of tokens, as plain data.
ghost use Rattle.std.specs.Prelude.{◌<◌, IfOk};
ghost use Rattle.cat_pos.specs.declared.limits.TheConstants.{ENTRIES_BOUND};
ghost use Rattle.cat_tree.specs.Spells.{height_of};

use crate::nodes::show;
use cat_lex::Token;
use cat_parse_expr::{ParseRefusal, expr, expr_reach};
use cat_tree::{Node, height};
use std::alloc::{AllocError, Global};

// These two keep of their calls' clauses what is needed here, so that the proofs of those who call them are short.
fn first(alloc: Global, tokens: &[Token]) -> Result<(Node, usize), ParseRefusal>
    ensures { IfOk result (λ read. height_of read.0 < ENTRIES_BOUND) }
{
    expr(alloc, tokens, 0)
}

fn first_and_reach(alloc: Global, tokens: &[Token]) -> Result<(Node, usize, usize), ParseRefusal> {
    expr_reach(alloc, tokens, 0)
}

// A node is dropped in functions of their own: at each end of a body that may drop one, its drop is proved again.
fn text_alone(alloc: Global, has_positions: bool, node: Node) -> Result<String, AllocError> {
    show(alloc, has_positions, &node)
}

fn height_alone(node: Node) -> u32
    requires { height_of node < ENTRIES_BOUND }
{
    height(&node)
}

/// The tree as a text, and where it ends.
pub fn tree(
    alloc: Global,
    tokens: &[Token],
    has_positions: bool,
) -> Result<(String, usize), ParseRefusal> {
    let (node, next) = first(alloc, tokens)?;
    Ok((text_alone(alloc, has_positions, node)?, next))
}

/// The same, and how far the tokens go on.
pub fn tree_and_reach(
    alloc: Global,
    tokens: &[Token],
    has_positions: bool,
) -> Result<(String, usize, usize), ParseRefusal> {
    let (node, next, reach) = first_and_reach(alloc, tokens)?;
    Ok((text_alone(alloc, has_positions, node)?, next, reach))
}

/// How high the tree is, and where it ends.
pub fn tree_height(alloc: Global, tokens: &[Token]) -> Result<(u32, usize), ParseRefusal> {
    let (node, next) = first(alloc, tokens)?;
    Ok((height_alone(node), next))
}

/// How far the tokens go on.
pub fn reach(alloc: Global, tokens: &[Token]) -> Result<usize, ParseRefusal> {
    let (_, _, reach) = first_and_reach(alloc, tokens)?;
    Ok(reach)
}
