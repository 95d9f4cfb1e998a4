//! The forms that tokens have, whatever their bounds.

use crate::{DoubleKeyword, Symbol};

/// The form of a token's spelling.
#[derive(Clone, Copy, Debug, PartialEq, Eq)]
pub enum Form {
    /// A word that begins with a capital from A to Z.
    TypeWord,
    /// Any other word: a name or a keyword.
    Word,
    Pair(DoubleKeyword),
    /// Digits alone.
    Whole,
    Decimal,
    Percent,
    Amount,
    Date,
    Mark(Symbol),
}
