// Names that lines spell.
ghost use Rattle.std.specs.Prelude.{◌≡◌, ◌≤◌, [], ◌∷◌, ◌++◌, MatchOption, IfSome, IfOk, is_some, length};
ghost use Rattle.std.specs.List.{list_all};
ghost use Rattle.std.specs.Str.{chars};
ghost use Rattle.std.specs.Char.{encode_utf8};
ghost use Rattle.unicode_ident.specs.Ident.{is_xid_continue};
ghost use Rattle.cat_lex.specs.Words.{keyword_of};
ghost use Rattle.cat_lex.specs.Forms.{IsWord, begins_name};
ghost use Rattle.std.specs.Bool.{MatchBool};
ghost use Rattle.cat_verify_tables.specs.TypeWords.{IsTypeName, IsPartName};
ghost use Rattle.cat_verify_tables.specs.inside.WordKinds.{IsWordOf, is_reserved};

use cat_lex::{Token, TokenKind, Tokens, lex, pieces_have_one_reading};
use cat_pos::{Piece, Pieces, Pos, Text};
use std::alloc::{AllocError, Global};
use unicode_ident::{is_xid_continue, is_xid_start};

/// What a text is as a word.
#[derive(Clone, Copy)]
enum Word {
    /// It begins with a capital.
    Type,
    Name,
    /// It is no word, or a keyword.
    Other,
}

/// No keyword is longer.
const LONGEST_KEYWORD: usize = 11;

/// The first character, and what follows it.
#[tactic(auto, using(std::proofs::lemmas::Str::chars_past_char))]
fn first_char(text: &str) -> Option<(char, &str)>
    ensures split { MatchOption result (text.now ≡ []) (λ x. text.now ≡ encode_utf8 x.0 ++ x.1.now) }
    ensures chars { IfSome result (λ x. chars text.now ≡ x.0 ∷ chars x.1.now) }
{
    let mut chars = text.chars();
    let first = chars.next()?;
    Some((first, chars.as_str()))
}

/// Whether each character continues a word.
#[tactic(auto, using(crate::proofs::WordLemmas::stepping))]
fn are_continuing(text: &str) -> bool
    ensures { result ≡ list_all is_xid_continue (chars text.now) }
{
    let mut rest = text;
    while let Some((c, after)) = first_char(rest) {
        if !is_xid_continue(c) {
            return false;
        }
        rest = after;
    }
    true
}

/// Whether the only token is a keyword.
fn is_reserved(tokens: &[Token]) -> bool
    ensures { result ≡ is_reserved tokens.now }
{
    match tokens {
        [token] => matches!(token.kind, TokenKind::Word(_)),
        _ => false,
    }
}

/// The token of a word on its own, as a source has it.
fn token_of(alloc: Global, text: &str) -> Result<Tokens, AllocError>
    requires word { IsWord begins_name text.now }
    requires short { length text.now ≤ LONGEST_KEYWORD }
    ensures { IfOk result (λ tokens. is_reserved tokens ≡ is_some (keyword_of text.now)) }
{
    pieces_have_one_reading();
    let mut pieces = Pieces::new(alloc);
    let text = Text::from_str(alloc, text)?;
    let pos = Pos::new(0, 1, 1);
    pieces.push(Piece { text, pos })?;
    match lex(alloc, pieces.as_slice()) {
        Ok(tokens) => Ok(tokens),
        // a word has a token, so that memory was wanting
        Err(_) => Err(AllocError),
    }
}

/// Whether a word is a keyword.
fn is_keyword(alloc: Global, text: &str) -> Result<bool, AllocError>
    requires { IsWord begins_name text.now }
    ensures { IfOk result (λ is. is ≡ is_some (keyword_of text.now)) }
{
    if text.len() > LONGEST_KEYWORD {
        return Ok(false);
    }
    let tokens = token_of(alloc, text)?;
    Ok(is_reserved(tokens.as_slice()))
}

fn word_of(alloc: Global, text: &str) -> Result<Word, AllocError>
    ensures { IfOk result (IsWordOf text.now) }
{
    let Some((first, others)) = first_char(text) else {
        return Ok(Word::Other);
    };
    if !are_continuing(others) {
        return Ok(Word::Other);
    }
    if first.is_ascii_uppercase() {
        return Ok(Word::Type);
    }
    if !is_xid_start(first) {
        return Ok(Word::Other);
    }
    let keyword = is_keyword(alloc, text)?;
    if keyword {
        return Ok(Word::Other);
    }
    Ok(Word::Name)
}

/// Whether a text is the name of a structure, an enumeration, a case or a scope.
pub(crate) fn is_type_name(alloc: Global, text: &str) -> Result<bool, AllocError>
    ensures { IfOk result (λ is. MatchBool is (IsTypeName text.now) (IsTypeName text.now → ⊥)) }
{
    match word_of(alloc, text)? {
        Word::Type => Ok(true),
        Word::Name => Ok(false),
        Word::Other => Ok(false),
    }
}

/// Whether a text is the name of a field or an item.
pub(crate) fn is_part_name(alloc: Global, text: &str) -> Result<bool, AllocError>
    ensures { IfOk result (λ is. MatchBool is (IsPartName text.now) (IsPartName text.now → ⊥)) }
{
    match word_of(alloc, text)? {
        Word::Type => Ok(false),
        Word::Name => Ok(true),
        Word::Other => Ok(false),
    }
}
