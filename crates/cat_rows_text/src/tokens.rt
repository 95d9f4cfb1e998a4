//! Calls that read tokens. The text stands in line 7 of file 3, from column 5 on; what follows `\/` is another piece.
ghost use Rattle.std.specs.Prelude.{◌≡◌};
ghost use Rattle.cat_pos.specs.Position.{pos_of};

use crate::sources::tokens_of_two;
use cat_date::number;
use cat_lex::{LexRefusal, Token, TokenKind, Tokens};
use cat_num::DecimalLiteral;
use cat_pos::Pos;
use cat_rows::{Arguments, Problem, add, show_pos, spelled};
use std::alloc::{AllocError, Global};

/// Where the first piece stands.
fn start() -> Pos
    ensures { result ≡ pos_of 3 7 5 }
{
    Pos::new(3, 7, 5)
}

/// The tokens, or the refusal.
pub fn tokens_answer(alloc: Global, given: &mut Arguments<'_>) -> Result<String, Problem> {
    match tokens(alloc, given.rest())? {
        Ok(tokens) => Ok(shown(alloc, tokens.as_slice())?),
        Err(refusal) => refused(alloc, refusal),
    }
}

/// The positions of the tokens, or the refusal.
pub fn token_positions_answer(alloc: Global, given: &mut Arguments<'_>) -> Result<String, Problem> {
    match tokens(alloc, given.rest())? {
        Ok(tokens) => Ok(placed(alloc, tokens.as_slice())?),
        Err(refusal) => refused(alloc, refusal),
    }
}

fn tokens(alloc: Global, text: &str) -> Result<Result<Tokens, LexRefusal>, Problem> {
    let (first, second) = text.split_once("\\/").unwrap_or((text, ""));
    let first = spelled(alloc, first)?;
    let second = spelled(alloc, second)?;
    tokens_of_two(alloc, first.as_str(), start(), second.as_str())
}

fn refused(alloc: Global, refusal: LexRefusal) -> Result<String, Problem> {
    let (name, pos) = match refusal {
        LexRefusal::NoToken(pos) => ("NoToken", pos),
        LexRefusal::LiteralRange(pos) => ("LiteralRange", pos),
        LexRefusal::Memory => return Err(Problem::Memory),
    };
    let pos = show_pos(alloc, pos)?;
    Ok(format!(in alloc; "{name} {pos}")?)
}

fn shown(alloc: Global, tokens: &[Token]) -> Result<String, AllocError> {
    let mut text = String::new(alloc);
    for token in tokens {
        add(&mut text, " | ", show(alloc, &token.kind)?.as_str())?;
    }
    Ok(text)
}

fn placed(alloc: Global, tokens: &[Token]) -> Result<String, AllocError> {
    let mut text = String::new(alloc);
    for token in tokens {
        add(&mut text, " ", show_pos(alloc, token.pos)?.as_str())?;
    }
    Ok(text)
}

/// The kind of a token and its value.
fn show(alloc: Global, kind: &TokenKind) -> Result<String, AllocError> {
    match kind {
        TokenKind::Upper(name) => format!(in alloc; "U {}", name.as_str()),
        TokenKind::Lower(name) => format!(in alloc; "w {}", name.as_str()),
        TokenKind::Word(keyword) => format!(in alloc; "{keyword:?}"),
        TokenKind::Pair(keyword) => format!(in alloc; "{keyword:?}"),
        TokenKind::Int(whole) => format!(in alloc; "INT {}", whole.get()),
        TokenKind::Dec(decimal) => show_decimal(alloc, "DEC", *decimal),
        TokenKind::Pct(decimal) => show_decimal(alloc, "PCT", *decimal),
        TokenKind::Money(money) => format!(in alloc; "MONEY {}", money.get()),
        TokenKind::Date(day) => format!(in alloc; "DATE {}", number(*day)),
        TokenKind::Symbol(symbol) => format!(in alloc; "{symbol:?}"),
    }
}

fn show_decimal(alloc: Global, form: &str, decimal: DecimalLiteral) -> Result<String, AllocError> {
    let (digits, places) = (decimal.digits(), decimal.places());
    format!(in alloc; "{form} {digits} {places}")
}
