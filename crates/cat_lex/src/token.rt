//! Tokens: what a source is made of once white space and comments are passed over.

use crate::{DoubleKeyword, Keyword, Symbol};
use cat_date::Day;
use cat_num::{DecimalLiteral, Money, Whole};
use cat_pos::{List, Pos, Text};

/// What a token is, with its value.
#[derive(Debug, Drop, PartialEq, Eq)]
pub enum TokenKind {
    /// A type word, which begins with a capital from A to Z.
    Upper(Text),
    /// A name word, which begins with any other letter and is no keyword.
    Lower(Text),
    Word(Keyword),
    Pair(DoubleKeyword),
    Int(Whole),
    Dec(DecimalLiteral),
    /// A percentage, as the decimal with two more places.
    Pct(DecimalLiteral),
    Money(Money),
    Date(Day),
    Symbol(Symbol),
}

/// A token, and the position of its first byte.
#[derive(Debug, Drop, PartialEq, Eq)]
pub struct Token {
    pub kind: TokenKind,
    pub pos: Pos,
}

pub type Tokens = List<Token>;

// Beside the text of its name a token takes at most 64 bytes, since there may be millions of them.
const _: () = prove!(size_of::<Token>() <= 64);
