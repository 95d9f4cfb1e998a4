//! The tokens of pieces of source code, each with its position.
#![tactic(auto)]

mod form;
mod laws;
mod lexer;
mod names;
mod reader;
mod refusal;
mod skip;
mod symbol;
mod tables;
mod token;
mod values;
mod words;

pub use form::Form;
pub use laws::{
    pieces_have_one_reading, positions_are_those_of_the_file, refused_pieces_have_no_reading,
};
pub use lexer::{lex, position_after};
pub use refusal::LexRefusal;
pub use symbol::Symbol;
pub use token::{Token, TokenKind, Tokens};
pub use words::{DoubleKeyword, Keyword};
