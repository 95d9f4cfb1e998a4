//! Calls that ask how far fronts of a text go on as an expression.

use crate::readings::reach;
use crate::tokens_of;
use cat_lex::Token;
use cat_parse_expr::ParseRefusal;
use cat_pos::{List, Numbers};
use cat_rows::{Arguments, Problem, show_numbers};
use std::alloc::Global;

/// How far the text goes on as an expression, cut off before each of its tokens in turn and at its end; then the same
/// where a word follows that goes on with no expression.
pub fn cuts_answer(alloc: Global, given: &mut Arguments<'_>) -> Result<String, Problem> {
    let text = given.rest();
    let tokens = tokens_of(alloc, text)?;
    let cut = reaches(alloc, text, tokens.as_slice(), "")?;
    let wrong = reaches(alloc, text, tokens.as_slice(), " scope")?;
    let (cut, wrong) = (cut.as_str(), wrong.as_str());
    Ok(format!(in alloc; "{cut} {wrong}")?)
}

/// The reach of the text before each of its tokens and at its end, with these words behind it.
fn reaches(alloc: Global, text: &str, tokens: &[Token], behind: &str) -> Result<String, Problem> {
    let mut reaches: Numbers = List::new(alloc);
    for token in tokens {
        let start = token.pos.column().saturating_sub(1) as usize;
        let front = text.get(..start).ok_or(Problem::Unreadable)?;
        reaches.push(reach_with(alloc, front, behind)?)?;
    }
    reaches.push(reach_with(alloc, text, behind)?)?;
    Ok(show_numbers(alloc, reaches.as_slice())?)
}

fn reach_with(alloc: Global, front: &str, behind: &str) -> Result<u32, Problem> {
    let text = format!(in alloc; "{front}{behind}")?;
    let tokens = tokens_of(alloc, text.as_str())?;
    let reach = broken_off(alloc, tokens.as_slice())?;
    u32::try_from(reach).ok().ok_or(Problem::Unreadable)
}

/// The reach, or the token at which the tokens go on with no expression.
fn broken_off(alloc: Global, tokens: &[Token]) -> Result<usize, Problem> {
    match reach(alloc, tokens) {
        Ok(reach) => Ok(reach),
        Err(ParseRefusal::Unexpected(at)) => Ok(at),
        Err(_) => Err(Problem::Unreadable),
    }
}
