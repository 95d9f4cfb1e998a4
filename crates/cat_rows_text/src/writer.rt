//! Texts under way. Words have a blank between, but for the first one behind a bracket.

use cat_pos::Pos;
use std::alloc::{AllocError, Global};
use std::fmt::Debug;

pub type WriteResult = Result<(), AllocError>;

/// A text to which words are added, with the positions of nodes or without.
#[derive(Drop)]
pub struct Writer {
    alloc: Global,
    text: String,
    has_positions: bool,
}

impl Writer {
    pub fn new(alloc: Global, has_positions: bool) -> Writer {
        Writer {
            alloc,
            text: String::new(alloc),
            has_positions,
        }
    }

    pub fn into_text(self) -> String {
        self.text
    }

    pub fn word(&mut self, word: &str) -> WriteResult {
        if self.is_behind_word() {
            self.text.push(' ')?;
        }
        self.text.push_str(word)
    }

    fn is_behind_word(&self) -> bool {
        let text = self.text.as_str();
        !(text.is_empty() || text.ends_with('(') || text.ends_with('['))
    }

    /// The value as its debugged text.
    pub fn value<T: Debug>(&mut self, value: &T) -> WriteResult {
        let word = format!(in self.alloc; "{value:?}")?;
        self.word(word.as_str())
    }

    /// What follows a word with no blank between.
    pub fn mark(&mut self, mark: &str) -> WriteResult {
        self.text.push_str(mark)
    }

    /// The column, as a word of its own, where positions are wanted.
    pub fn at(&mut self, pos: Pos) -> WriteResult {
        if !self.has_positions {
            return Ok(());
        }
        self.word("@")?;
        self.column(pos)
    }

    /// The column behind a word, where positions are wanted.
    pub fn mark_at(&mut self, pos: Pos) -> WriteResult {
        if !self.has_positions {
            return Ok(());
        }
        self.mark("@")?;
        self.column(pos)
    }

    fn column(&mut self, pos: Pos) -> WriteResult {
        let column = format!(in self.alloc; "{}", pos.column())?;
        self.mark(column.as_str())
    }
}
