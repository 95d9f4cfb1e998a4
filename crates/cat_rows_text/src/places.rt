//! Calls that ask where a text is refused as a program.

use crate::tokens_of;
use cat_lex::Token;
use cat_parse::program;
use cat_rows::{Arguments, Problem, add};
use std::alloc::Global;

/// Whether the text is a program as a whole; else where it is refused.
pub fn program_answer(alloc: Global, given: &mut Arguments<'_>) -> Result<String, Problem> {
    answer_of(alloc, given.rest())
}

/// The same of the text before each of its tokens in turn, and of all of it.
pub fn program_cuts_answer(alloc: Global, given: &mut Arguments<'_>) -> Result<String, Problem> {
    let text = given.rest();
    let tokens = tokens_of(alloc, text)?;
    let mut answers = String::new(alloc);
    for token in tokens.as_slice() {
        let front = text.get(..start_of(token)).ok_or(Problem::Unreadable)?;
        let answer = answer_of(alloc, front)?;
        add(&mut answers, " ", answer.as_str())?;
    }
    let answer = answer_of(alloc, text)?;
    add(&mut answers, " ", answer.as_str())?;
    Ok(answers)
}

/// The same of the text with the first word in the place of each of its tokens in turn.
pub fn program_swaps_answer(alloc: Global, given: &mut Arguments<'_>) -> Result<String, Problem> {
    let word = given.word();
    let text = given.rest();
    let tokens = tokens_of(alloc, text)?;
    let mut answers = String::new(alloc);
    for (at, token) in tokens.as_slice().iter().enumerate() {
        let next = tokens.as_slice().get(at + 1);
        let end = next.map_or(text.len(), start_of);
        let swapped = with_word(alloc, text, word, start_of(token), end)?;
        let answer = answer_of(alloc, swapped.as_str())?;
        add(&mut answers, " ", answer.as_str())?;
    }
    Ok(answers)
}

/// The text with the word in the place of what stands from one offset up to another.
fn with_word(
    alloc: Global,
    text: &str,
    word: &str,
    start: usize,
    end: usize,
) -> Result<String, Problem> {
    let front = text.get(..start).ok_or(Problem::Unreadable)?;
    let behind = text.get(end..).ok_or(Problem::Unreadable)?;
    Ok(format!(in alloc; "{front}{word} {behind}")?)
}

/// The offset of a token in a text of one line.
fn start_of(token: &Token) -> usize {
    token.pos.column().saturating_sub(1) as usize
}

fn answer_of(alloc: Global, text: &str) -> Result<String, Problem> {
    let tokens = tokens_of(alloc, text)?;
    match program(alloc, tokens.as_slice()) {
        Ok(_) => Ok(String::from_str(alloc, "whole")?),
        Err(refusal) => Ok(format!(in alloc; "{refusal:?}")?),
    }
}
