// What may follow a whole expression.
ghost use Rattle.std.specs.Prelude.{◌≡◌, drop};
ghost use Rattle.cat_parse_expr.specs.Openings as spec;

use cat_lex::{DoubleKeyword, Keyword, Symbol, Token, TokenKind};
use cat_tree::Operator;

/// What a token is behind a whole expression.
#[derive(Clone, Copy)]
pub enum Follow {
    Operated(Operator),
    Dotted,
    Tests,
    Other,
}

fn follow_of_word(keyword: Keyword) -> Follow
    ensures { result ≡ spec.follow_of (TokenKind.Word keyword) }
{
    match keyword {
        Keyword::Or => Follow::Operated(Operator::Or),
        Keyword::Xor => Follow::Operated(Operator::Xor),
        Keyword::And => Follow::Operated(Operator::And),
        Keyword::Contains => Follow::Operated(Operator::Contains),
        _ => Follow::Other,
    }
}

fn follow_of_symbol(symbol: Symbol) -> Follow
    ensures { result ≡ spec.follow_of (TokenKind.Symbol symbol) }
{
    match symbol {
        Symbol::Less => Follow::Operated(Operator::Less),
        Symbol::LessEqual => Follow::Operated(Operator::LessEqual),
        Symbol::Greater => Follow::Operated(Operator::Greater),
        Symbol::GreaterEqual => Follow::Operated(Operator::GreaterEqual),
        Symbol::Equal => Follow::Operated(Operator::Equal),
        Symbol::NotEqual => Follow::Operated(Operator::NotEqual),
        Symbol::Plus => Follow::Operated(Operator::Plus),
        Symbol::Minus => Follow::Operated(Operator::Minus),
        Symbol::Star => Follow::Operated(Operator::Times),
        Symbol::Slash => Follow::Operated(Operator::Divide),
        Symbol::Dot => Follow::Dotted,
        _ => Follow::Other,
    }
}

fn follow_of(kind: &TokenKind) -> Follow
    ensures { result ≡ spec.follow_of kind.now }
{
    match kind {
        TokenKind::Word(keyword) => follow_of_word(*keyword),
        TokenKind::Symbol(symbol) => follow_of_symbol(*symbol),
        TokenKind::Pair(DoubleKeyword::WithPattern) => Follow::Tests,
        _ => Follow::Other,
    }
}

/// What the token at the index is behind a whole expression.
pub(crate) fn follow_at(tokens: &[Token], at: usize) -> Follow
    ensures { result ≡ spec.follow_at (drop at tokens.now) }
{
    match tokens.get(at) {
        Some(token) => follow_of(&token.kind),
        None => Follow::Other,
    }
}
