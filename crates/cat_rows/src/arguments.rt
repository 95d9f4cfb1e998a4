//! The words of a line, read from the left.

use crate::problem::Problem;

/// What is left of a line.
#[derive(Drop)]
pub struct Arguments<'a> {
    rest: &'a str,
}

impl<'a> Arguments<'a> {
    pub fn of(line: &'a str) -> Arguments<'a> {
        Arguments { rest: line }
    }

    /// All that is left.
    pub fn rest(&self) -> &'a str {
        self.rest
    }

    /// The next word, which is empty at the end.
    pub fn word(&mut self) -> &'a str {
        let (word, rest) = self.rest.split_once(' ').unwrap_or((self.rest, ""));
        self.rest = rest;
        word
    }

    /// What the table has for the next word.
    pub fn choice<T: Copy>(&mut self, table: &[(&str, T)]) -> Result<T, Problem> {
        let word = self.word();
        for &(name, value) in table {
            if word == name {
                return Ok(value);
            }
        }
        Err(Problem::Unreadable)
    }

    pub fn integer(&mut self) -> Result<i64, Problem> {
        self.word().parse::<i64>().ok().ok_or(Problem::Unreadable)
    }

    pub fn count(&mut self) -> Result<u32, Problem> {
        self.word().parse::<u32>().ok().ok_or(Problem::Unreadable)
    }
}
