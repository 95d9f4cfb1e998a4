//! Pieces into tokens.
ghost use Rattle.std.specs.Prelude.{◌≡◌, ◌++◌, ◌+◌, ◌<◌, ◌≤◌, ℕ, List, length, IfOk, IfErr, OnOk};
ghost use Rattle.std.specs.Str.{IsUtf8};
ghost use Rattle.cat_pos.specs.Position.{pos_column};
ghost use Rattle.cat_lex.specs.Positions.{position_after};
ghost use Rattle.cat_pos.specs.Readable.{AreReadable, IsReadable};
ghost use Rattle.cat_lex.specs.Lexes.{Lexes, HasCause};
ghost use Rattle.cat_lex.specs.inside.Steps.{AddsPiece, IsAfterGap, IsFirst, HasCauseAt, HasCauseIn};

use crate::names::Names;
use crate::reader::read;
use crate::skip::skip_gap;
use crate::values::token_kind;
use crate::{LexRefusal, Token, Tokens};
use cat_pos::{COLUMNS_BOUND, ENTRIES_BOUND, List, Piece, Pos};
use std::alloc::Global;

/// The position after these bytes.
pub fn position_after(pos: Pos, bytes: &[u8]) -> Pos
    requires line { pos.line + length bytes.now < ENTRIES_BOUND }
    requires column { pos_column pos + length bytes.now < COLUMNS_BOUND }
    ensures position { result ≡ position_after pos bytes.now }
    ensures line { result.line ≤ pos.line + length bytes.now }
    ensures column { pos_column result ≤ pos_column pos + length bytes.now }
{
    let mut line = pos.line;
    let mut column = pos.column();
    for &byte in bytes {
        if byte == b'\n' {
            line += 1;
            column = 1;
        } else {
            column += 1;
        }
    }
    Pos::new(pos.file(), line, column)
}

/// What stands in front of the rest.
fn front<'a>(text: &'a str, rest: &[u8]) -> &'a str
    requires suffix { (front : List ℕ) × (text.now ≡ front ++ rest.now) }
    requires utf8 { IsUtf8 rest.now }
    ensures { text.now ≡ result.now ++ rest.now }
{
    &text[..text.len() - rest.len()]
}

/// The rest, as a text.
fn tail<'a>(text: &'a str, rest: &[u8]) -> &'a str
    requires suffix { (front : List ℕ) × (text.now ≡ front ++ rest.now) }
    requires utf8 { IsUtf8 rest.now }
    ensures { result.now ≡ rest.now }
{
    &text[text.len() - rest.len()..]
}

/// The token in front of the text, which stands at this position, and what follows it.
fn first_token<'a>(
    alloc: Global,
    names: &mut Names<'a>,
    text: &'a str,
    position: Pos,
) -> Result<(Token, &'a str), LexRefusal>
    ensures first { IfOk result (λ x. IsFirst x.0 position text.now x.1.now) }
    ensures cause { IfErr result (λ refusal. HasCauseAt position text.now refusal) }
{
    let Some((form, rest)) = read(text) else {
        return Err(LexRefusal::NoToken(position));
    };
    match token_kind(alloc, names, form, front(text, rest))? {
        Some(kind) => Ok((
            Token {
                kind,
                pos: position,
            },
            tail(text, rest),
        )),
        None => Err(LexRefusal::LiteralRange(position)),
    }
}

/// The text after its white space and comments, and its position.
fn after_gap(text: &str, pos: Pos) -> (&str, Pos)
    requires line { pos.line + length text.now < ENTRIES_BOUND }
    requires column { pos_column pos + length text.now < COLUMNS_BOUND }
    ensures gap { IsAfterGap pos text.now result.1 result.0.now }
    ensures line { result.1.line + length result.0.now ≤ pos.line + length text.now }
    ensures column { pos_column result.1 + length result.0.now ≤ pos_column pos + length text.now }
{
    let rest = skip_gap(text.as_bytes());
    let position = position_after(pos, front(text, rest).as_bytes());
    (tail(text, rest), position)
}

/// Adds the tokens of the piece. After a refusal, those that stand in front of the fault are added.
fn add_piece<'a>(
    alloc: Global,
    names: &mut Names<'a>,
    piece: &'a Piece,
    tokens: &mut Tokens,
) -> Result<(), LexRefusal>
    requires { IsReadable piece.now }
    ensures tokens { OnOk result (AddsPiece piece.now tokens.old tokens.new) }
    ensures cause { IfErr result (λ refusal. HasCauseIn piece.now refusal) }
{
    let mut text = piece.text.as_str();
    let mut pos = piece.pos;
    loop {
        let (first, position) = after_gap(text, pos);
        if first.is_empty() {
            return Ok(());
        }
        let (token, after) = first_token(alloc, names, first, position)?;
        pos = position_after(position, front(first, after.as_bytes()).as_bytes());
        text = after;
        tokens.push(token)?;
    }
}

/// The tokens of the pieces, one piece after the other. A refusal names the first position that is at fault.
pub fn lex(alloc: Global, pieces: &[Piece]) -> Result<Tokens, LexRefusal>
    requires { AreReadable pieces.now }
    ensures lexed { IfOk result (λ tokens. Lexes pieces.now tokens) }
    ensures cause { IfErr result (λ refusal. HasCause pieces.now refusal) }
{
    let mut names = Names::new(alloc);
    let mut tokens = List::new(alloc);
    for piece in pieces {
        add_piece(alloc, &mut names, piece, &mut tokens)?;
    }
    Ok(tokens)
}
