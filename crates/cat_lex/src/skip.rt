//! Runs of bytes and of characters of one class.
ghost use Rattle.std.specs.Prelude.{◌≡◌, ◌++◌, ◌∷◌, [], false, MatchOption, IfSome};
ghost use Rattle.std.specs.Char.{encode_utf8, is_ascii_digit};
ghost use Rattle.std.specs.Str.{chars};
ghost use Rattle.unicode_ident.specs.Ident.{is_xid_continue};
ghost use Rattle.cat_lex.specs.Gaps.{is_white_space};
ghost use Rattle.cat_pos.specs.Bytes.{is_blank};
ghost use Rattle.cat_lex.specs.inside.Reading.{skip, after, skip_gap};

use cat_pos::is_blank;
use unicode_ident::is_xid_continue;

/// Space, tab, carriage return or line feed.
pub(crate) fn is_white_space(byte: u8) -> bool
    ensures { result ≡ is_white_space byte }
{
    matches!(byte, b' ' | b'\t' | b'\r' | b'\n')
}

/// The text after its digits.
pub(crate) fn skip_digits(text: &[u8]) -> &[u8]
    ensures { result.now ≡ skip is_ascii_digit text.now }
{
    for (at, byte) in text.iter().enumerate() {
        if !byte.is_ascii_digit() {
            return &text[at..];
        }
    }
    &[]
}

/// The text after its blanks.
pub(crate) fn skip_blanks(text: &[u8]) -> &[u8]
    ensures { result.now ≡ skip is_blank text.now }
{
    for (at, &byte) in text.iter().enumerate() {
        if !is_blank(byte) {
            return &text[at..];
        }
    }
    &[]
}

/// The text after its white space and comments.
pub(crate) fn skip_gap(text: &[u8]) -> &[u8]
    ensures { result.now ≡ skip_gap false text.now }
{
    let mut inside = false;
    for (at, &byte) in text.iter().enumerate() {
        if inside {
            inside = byte != b'\n';
        } else if !is_white_space(byte) {
            if byte != b'#' || text[at..].starts_with(b"#[") {
                return &text[at..];
            }
            inside = true;
        }
    }
    &[]
}

/// The first character, and what follows it.
#[tactic(auto, using(std::proofs::lemmas::Str::chars_past_char))]
pub(crate) fn first_char(text: &str) -> Option<(char, &str)>
    ensures split { MatchOption result (text.now ≡ []) (λ x. text.now ≡ encode_utf8 x.0 ++ x.1.now) }
    ensures chars { IfSome result (λ x. chars text.now ≡ x.0 ∷ chars x.1.now) }
{
    let mut chars = text.chars();
    let first = chars.next()?;
    Some((first, chars.as_str()))
}

/// The text after its characters that continue an identifier.
#[tactic(auto, using(crate::proofs::Chars::stepping))]
pub(crate) fn after_word(text: &str) -> &str
    ensures { result.now ≡ after is_xid_continue text.now }
{
    let mut rest = text;
    while let Some((c, after)) = first_char(rest) {
        if !is_xid_continue(c) {
            break;
        }
        rest = after;
    }
    rest
}

/// The text after its white space.
#[tactic(auto, using(crate::proofs::Chars::stepping))]
pub(crate) fn after_white_space(text: &str) -> &str
    ensures { result.now ≡ after is_white_space text.now }
{
    let mut rest = text;
    while let Some((c, after)) = first_char(rest) {
        if !matches!(c, ' ' | '\t' | '\r' | '\n') {
            break;
        }
        rest = after;
    }
    rest
}
