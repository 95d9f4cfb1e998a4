// How an expression begins.
ghost use Rattle.std.specs.Prelude.{◌≡◌, drop};
ghost use Rattle.cat_parse_expr.specs.Openings as spec;

use crate::levels::prefix_level;
use cat_lex::{DoubleKeyword, Keyword, Symbol, Token, TokenKind};
use cat_tree::{Each, Prefix};

/// The form that a first word begins.
#[derive(Clone, Copy)]
pub enum Opening {
    Literal,
    /// A name, or a call of a function.
    Name,
    /// A case, with its content or alone, or a structure.
    Case,
    Parens,
    List,
    ScopeCall,
    Prefixed(Prefix),
    Sum,
    If,
    Match,
    Each(Each),
    Combine,
    Nothing,
}

fn opening_of_word(keyword: Keyword) -> Opening
    ensures { result ≡ spec.opening_of (TokenKind.Word keyword) }
{
    match keyword {
        Keyword::True | Keyword::False => Opening::Literal,
        Keyword::Not => Opening::Prefixed(Prefix::Not),
        Keyword::Integer => Opening::Prefixed(Prefix::IntegerOf),
        Keyword::Decimal => Opening::Prefixed(Prefix::DecimalOf),
        Keyword::Money => Opening::Prefixed(Prefix::MoneyOf),
        Keyword::GetYear => Opening::Prefixed(Prefix::GetYear),
        Keyword::GetMonth => Opening::Prefixed(Prefix::GetMonth),
        Keyword::GetDay => Opening::Prefixed(Prefix::GetDay),
        Keyword::Sum => Opening::Sum,
        Keyword::If => Opening::If,
        Keyword::Match => Opening::Match,
        Keyword::Exists => Opening::Each(Each::Exists),
        _ => Opening::Nothing,
    }
}

fn opening_of_pair(words: DoubleKeyword) -> Opening
    ensures { result ≡ spec.opening_of (TokenKind.Pair words) }
{
    match words {
        DoubleKeyword::OutputOf => Opening::ScopeCall,
        DoubleKeyword::RoundOf => Opening::Prefixed(Prefix::RoundOf),
        DoubleKeyword::NumberOf => Opening::Prefixed(Prefix::NumberOf),
        DoubleKeyword::ForAll => Opening::Each(Each::ForAll),
        DoubleKeyword::MapEach => Opening::Each(Each::MapEach),
        DoubleKeyword::ListOf => Opening::Each(Each::ListOf),
        DoubleKeyword::CombineAll => Opening::Combine,
        _ => Opening::Nothing,
    }
}

fn opening_of_symbol(symbol: Symbol) -> Opening
    ensures { result ≡ spec.opening_of (TokenKind.Symbol symbol) }
{
    match symbol {
        Symbol::LeftParen => Opening::Parens,
        Symbol::LeftBracket => Opening::List,
        Symbol::Minus => Opening::Prefixed(Prefix::Negate),
        _ => Opening::Nothing,
    }
}

fn opening_of(kind: &TokenKind) -> Opening
    ensures { result ≡ spec.opening_of kind.now }
{
    match kind {
        TokenKind::Lower(_) => Opening::Name,
        TokenKind::Upper(_) => Opening::Case,
        TokenKind::Word(keyword) => opening_of_word(*keyword),
        TokenKind::Pair(words) => opening_of_pair(*words),
        TokenKind::Symbol(symbol) => opening_of_symbol(*symbol),
        _ => Opening::Literal,
    }
}

/// The form that the token at the index begins.
pub(crate) fn opening_at(tokens: &[Token], at: usize) -> Opening
    ensures { result ≡ spec.opening_at (drop at tokens.now) }
{
    match tokens.get(at) {
        Some(token) => opening_of(&token.kind),
        None => Opening::Nothing,
    }
}

/// Whether the form stands at the level.
pub(crate) fn stands(level: u32, opening: Opening) -> bool
    ensures { result ≡ spec.stands level opening }
{
    match opening {
        Opening::Nothing => false,
        Opening::Prefixed(prefix) => level <= prefix_level(prefix),
        Opening::Sum => level <= 8,
        Opening::If => level <= 8,
        Opening::Match => level <= 8,
        Opening::Each(_) => level <= 8,
        Opening::Combine => level <= 8,
        _ => true,
    }
}
