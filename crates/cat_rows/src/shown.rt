//! Texts, positions and what stands there, as an answer shows them.

use cat_pos::Pos;
use std::alloc::{AllocError, Global};

/// The text with `\n`, `\r` and `\t` in the place of line feeds, carriage returns and tabs.
pub fn escaped(alloc: Global, text: &str) -> Result<String, AllocError> {
    let text = text.replace(alloc, "\n", "\\n")?;
    let text = text.replace(alloc, "\r", "\\r")?;
    text.replace(alloc, "\t", "\\t")
}

/// Adds a part, with the mark in front of all but the first.
pub fn add(text: &mut String, mark: &str, part: &str) -> Result<(), AllocError> {
    if !text.is_empty() {
        text.push_str(mark)?;
    }
    text.push_str(part)
}

/// File, line and column.
pub fn show_pos(alloc: Global, pos: Pos) -> Result<String, AllocError> {
    let (file, line, column) = (pos.file(), pos.line, pos.column());
    format!(in alloc; "{file}:{line}:{column}")
}

/// What stands at a position, and its text.
pub fn spot(alloc: Global, what: &str, pos: Pos, text: &str) -> Result<String, AllocError> {
    let pos = show_pos(alloc, pos)?;
    let text = escaped(alloc, text)?;
    format!(in alloc; "{what} {pos} {text}")
}
