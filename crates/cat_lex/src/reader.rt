//! The form in front of a text, and what follows it.
ghost use Rattle.std.specs.Prelude.{◌≡◌, ◌++◌, ℕ, List};
ghost use Rattle.std.specs.Char.{is_ascii_digit};
ghost use Rattle.cat_lex.specs.Gaps.{is_white_space};
ghost use Rattle.cat_lex.specs.inside.Reading.{begins, is_pointed, number_read, skip_groups, skip_cents, amount_read};
ghost use Rattle.cat_lex.specs.inside.Reading.{date_read, mark_read, pair_read, word_read, read, front_of};
ghost use Rattle.cat_lex.specs.inside.Tables.{seen};

use crate::Form;
use crate::skip::{
    after_white_space, after_word, first_char, is_white_space, skip_blanks, skip_digits,
};
use crate::tables::{begins_pair, double_keyword, symbol};
use cat_date::has_form;
use unicode_ident::is_xid_start;

/// The form of a date, with 0 for each digit.
const DATE: [u8; 12] = *b"|0000-00-00|";

fn begins_with_digit(text: &[u8]) -> bool
    ensures { result ≡ begins is_ascii_digit text.now }
{
    match text {
        [first, ..] => first.is_ascii_digit(),
        [] => false,
    }
}

/// Whether a point and a digit come first.
fn is_pointed(text: &[u8]) -> bool
    ensures { result ≡ is_pointed text.now }
{
    match text {
        [b'.', rest @ ..] => begins_with_digit(rest),
        _ => false,
    }
}

/// A number, where a digit comes first.
fn number(text: &[u8]) -> (Form, &[u8])
    ensures { (result.0, result.1.now) ≡ number_read text.now }
{
    let units = skip_digits(text);
    let pointed = is_pointed(units);
    let places = if pointed {
        skip_digits(&units[1..])
    } else {
        units
    };
    match skip_blanks(places) {
        [b'%', rest @ ..] => (Form::Percent, rest),
        _ if pointed => (Form::Decimal, places),
        _ => (Form::Whole, units),
    }
}

/// The text after all groups of a comma and three digits.
fn skip_groups(text: &[u8]) -> &[u8]
    ensures { result.now ≡ skip_groups text.now }
{
    let mut rest = text;
    while let [b',', x, y, z, after @ ..] = rest {
        if !x.is_ascii_digit() || !y.is_ascii_digit() || !z.is_ascii_digit() {
            break;
        }
        rest = after;
    }
    rest
}

/// The text after a point and one or two digits.
fn skip_cents(text: &[u8]) -> &[u8]
    ensures { result.now ≡ skip_cents text.now }
{
    match text {
        [b'.', x, y, rest @ ..] if x.is_ascii_digit() && y.is_ascii_digit() => rest,
        [b'.', x, rest @ ..] if x.is_ascii_digit() => rest,
        _ => text,
    }
}

/// An amount, whose `$` stands in front of the text.
fn amount(text: &[u8]) -> Option<(Form, &[u8])>
    ensures { seen result ≡ amount_read text.now }
{
    if !begins_with_digit(text) {
        return None;
    }
    let rest = skip_cents(skip_groups(skip_digits(text)));
    Some((Form::Amount, rest))
}

fn date(text: &[u8]) -> Option<(Form, &[u8])>
    ensures { seen result ≡ date_read text.now }
{
    if text.len() >= DATE.len() && has_form(&text[..DATE.len()], &DATE) {
        Some((Form::Date, &text[DATE.len()..]))
    } else {
        None
    }
}

fn mark(text: &[u8]) -> Option<(Form, &[u8])>
    ensures { seen result ≡ mark_read text.now }
{
    if let [_, _, rest @ ..] = text
        && let Some(symbol) = symbol(&text[..2])
    {
        return Some((Form::Mark(symbol), rest));
    }
    if let [_, rest @ ..] = text
        && let Some(symbol) = symbol(&text[..1])
    {
        return Some((Form::Mark(symbol), rest));
    }
    None
}

/// What stands in front of the rest.
fn front_of<'a>(text: &'a str, rest: &str) -> &'a str
    requires { (front : List ℕ) × (text.now ≡ front ++ rest.now) }
    ensures { result.now ≡ front_of text.now rest.now }
{
    &text[..text.len() - rest.len()]
}

fn begins_with_blank(text: &str) -> bool
    ensures { result ≡ begins is_white_space text.now }
{
    match text.as_bytes() {
        [first, ..] => is_white_space(*first),
        [] => false,
    }
}

/// A word that the rest follows, or the double keyword that it begins.
fn pair<'a>(text: &'a str, rest: &'a str) -> (Form, &'a str)
    requires { (front : List ℕ) × (text.now ≡ front ++ rest.now) }
    ensures { (result.0, result.1.now) ≡ pair_read text.now rest.now }
{
    if !begins_with_blank(rest) {
        return (Form::Word, rest);
    }
    let first = front_of(text, rest);
    if !begins_pair(first) {
        return (Form::Word, rest);
    }
    let second = after_white_space(rest);
    let end = after_word(second);
    match double_keyword(first, front_of(second, end)) {
        Some(keyword) => (Form::Pair(keyword), end),
        None => (Form::Word, rest),
    }
}

fn word(text: &str) -> Option<(Form, &str)>
    ensures { seen result ≡ word_read text.now }
{
    let Some((first, _)) = first_char(text) else {
        return None;
    };
    let rest = after_word(text);
    if first.is_ascii_uppercase() {
        Some((Form::TypeWord, rest))
    } else if is_xid_start(first) {
        Some(pair(text, rest))
    } else {
        None
    }
}

/// The form of the longest token in front of the text, and what follows it.
pub(crate) fn read(text: &str) -> Option<(Form, &[u8])>
    ensures { seen result ≡ read text.now }
{
    let bytes = text.as_bytes();
    match bytes {
        [] => None,
        [b'A'..=b'Z' | b'a'..=b'z' | 128.., ..] => {
            let Some((form, rest)) = word(text) else {
                return None;
            };
            Some((form, rest.as_bytes()))
        }
        [b'0'..=b'9', ..] => Some(number(bytes)),
        [b'$', rest @ ..] => amount(rest),
        [b'|', ..] => date(bytes),
        _ => mark(bytes),
    }
}
