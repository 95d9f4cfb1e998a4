//! Positions in source files, and the lists, boxes and texts that every crate's data is made of.
#![tactic(auto)]

mod boxed;
mod bytes;
mod files;
mod limits;
mod list;
mod pos;
mod shared;
mod stack;
mod text;

pub use boxed::Boxed;
pub use bytes::is_blank;
pub use files::{Files, show_pos};
pub use limits::{
    COLUMNS_BOUND, ENTRIES_BOUND, LAST_LINE, MOST_FILE_BYTES, MOST_FILES, MOST_INPUT_BYTES,
    MOST_SOURCE_BYTES, limits_are_as_stated,
};
pub use list::{List, empty_lists};
pub use pos::{Piece, Pieces, Pos, Positions, pos_at};
pub use shared::Shared;
pub use stack::Stack;
pub use text::Text;

/// Numbers of scopes, items, definitions and the like.
pub type Numbers = List<u32>;

/// Lists of numbers, one for each entry of another list.
pub type NumberLists = List<Numbers>;

#[cfg(test)]
mod tests;
