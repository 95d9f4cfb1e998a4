//! Calls that read towers, `BEFORE?MIDDLE?BEHIND`, in which the first and the last text stand as often as told.

use crate::expressions::read;
use crate::readings::{reach, tree_height};
use crate::tokens_of;
use cat_lex::{Token, Tokens};
use cat_parse_expr::ParseRefusal;
use cat_rows::{Arguments, Problem, around, halves};
use std::alloc::Global;

/// The tree of a tower.
pub fn tower_tree_answer(alloc: Global, given: &mut Arguments<'_>) -> Result<String, Problem> {
    let tokens = tokens_of_tower(alloc, given)?;
    read(alloc, tokens.as_slice(), false)
}

/// The height of what is read of a tower, its end, and the reach; or the refusals.
pub fn tower_height_answer(alloc: Global, given: &mut Arguments<'_>) -> Result<String, Problem> {
    let tokens = tokens_of_tower(alloc, given)?;
    let measured = measured(alloc, tokens.as_slice())?;
    let reached = reached(alloc, tokens.as_slice())?;
    let (measured, reached) = (measured.as_str(), reached.as_str());
    Ok(format!(in alloc; "{measured} {reached}")?)
}

fn tokens_of_tower(alloc: Global, given: &mut Arguments<'_>) -> Result<Tokens, Problem> {
    let times = given.count()?;
    let (before, rest) = halves(given.rest(), "?")?;
    let (middle, behind) = halves(rest, "?")?;
    let text = around(alloc, times, before, middle, behind)?;
    tokens_of(alloc, text.as_str())
}

fn measured(alloc: Global, tokens: &[Token]) -> Result<String, Problem> {
    match tree_height(alloc, tokens) {
        Ok((height, next)) => Ok(format!(in alloc; "{height} {next}")?),
        Err(refusal) => named(alloc, refusal),
    }
}

fn reached(alloc: Global, tokens: &[Token]) -> Result<String, Problem> {
    match reach(alloc, tokens) {
        Ok(reach) => Ok(format!(in alloc; "{reach}")?),
        Err(refusal) => named(alloc, refusal),
    }
}

/// A refusal, without the index where the height is passed: that may be any token from which all are too high.
fn named(alloc: Global, refusal: ParseRefusal) -> Result<String, Problem> {
    match refusal {
        ParseRefusal::TooDeep(_) => Ok(String::from_str(alloc, "TooDeep")?),
        ParseRefusal::Unexpected(_) => Ok(format!(in alloc; "{refusal:?}")?),
        ParseRefusal::Memory => Err(Problem::Memory),
    }
}
