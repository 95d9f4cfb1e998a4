//! Calls that read an expression.

use crate::readings::{tree, tree_and_reach};
use crate::tokens_of;
use cat_lex::Token;
use cat_parse_expr::ParseRefusal;
use cat_rows::{Arguments, Problem, spelled};
use std::alloc::Global;

/// The tree of a text, followed by its end and the reach where these aren't the end of the tokens; or the refusal.
pub fn tree_answer(alloc: Global, given: &mut Arguments<'_>) -> Result<String, Problem> {
    read_text(alloc, given.rest(), false)
}

/// The same, with the positions of the nodes.
pub fn node_positions_answer(alloc: Global, given: &mut Arguments<'_>) -> Result<String, Problem> {
    read_text(alloc, given.rest(), true)
}

fn read_text(alloc: Global, text: &str, has_positions: bool) -> Result<String, Problem> {
    let text = spelled(alloc, text)?;
    let tokens = tokens_of(alloc, text.as_str())?;
    read(alloc, tokens.as_slice(), has_positions)
}

/// What the tokens are read as: by `expr_reach`, and by `expr` the same.
pub fn read(alloc: Global, tokens: &[Token], has_positions: bool) -> Result<String, Problem> {
    match tree_and_reach(alloc, tokens, has_positions) {
        Ok((text, next, reach)) => {
            if !is_read(alloc, tokens, has_positions, text.as_str(), next) {
                return Ok(String::from_str(alloc, "read by expr_reach alone")?);
            }
            with_end(alloc, text, next, reach, tokens.len())
        }
        Err(refusal) => refused(alloc, tokens, refusal),
    }
}

/// Whether `expr` reads the tree that has this text, and ends there.
fn is_read(alloc: Global, tokens: &[Token], has_positions: bool, text: &str, next: usize) -> bool {
    match tree(alloc, tokens, has_positions) {
        Ok((same, end)) => same.as_str() == text && end == next,
        Err(_) => false,
    }
}

/// The tree, and where it ends and how far the tokens go on, unless both are the end of the tokens.
fn with_end(
    alloc: Global,
    text: String,
    next: usize,
    reach: usize,
    end: usize,
) -> Result<String, Problem> {
    if next == end && reach == end {
        return Ok(text);
    }
    let text = text.as_str();
    Ok(format!(in alloc; "{text} {next} {reach}")?)
}

/// The refusal, which `expr` gives too.
fn refused(alloc: Global, tokens: &[Token], refusal: ParseRefusal) -> Result<String, Problem> {
    if tree(alloc, tokens, false).err() != Some(refusal) {
        return Ok(String::from_str(alloc, "refused by expr_reach alone")?);
    }
    Ok(format!(in alloc; "{refusal:?}")?)
}
