//! The token that a spelling of a form is, where it keeps the form's bounds.
ghost use Rattle.std.specs.Prelude.{◌≡◌, ◌+◌, ◌≤◌, min, length, IfOk};
ghost use Rattle.std.specs.Char.{is_ascii_digit};
ghost use Rattle.std.specs.List.{count_by, position_or_len};
ghost use Rattle.cat_lex.specs.Values.{is_point, number_of, units_of, places_of, token_of};

use crate::names::Names;
use crate::tables::keyword;
use crate::{Form, TokenKind};
use cat_date::read_day;
use cat_num::{DecimalLiteral, Money, Whole};
use std::alloc::{AllocError, Global};

/// More than any bound on a number.
const CAP: u128 = 0x1_0000_0000_0000_0000;

/// The number that the digits write, or the cap where it passes that.
fn capped_number(word: &[u8]) -> u128
    ensures { result ≡ min (number_of word.now) CAP }
{
    let mut number = 0;
    for &byte in word {
        if byte.is_ascii_digit() {
            number = (10 * number + (byte - b'0') as u128).min(CAP);
        }
    }
    number
}

fn count_digits(text: &[u8]) -> usize
    ensures { result ≡ count_by is_ascii_digit text.now }
{
    text.iter().filter(|byte| byte.is_ascii_digit()).count()
}

/// How many bytes stand before the point.
fn point_at(word: &[u8]) -> usize
    ensures value { result ≡ position_or_len is_point word.now }
    ensures within { result ≤ length word.now }
{
    for (at, byte) in word.iter().enumerate() {
        if *byte == b'.' {
            return at;
        }
    }
    word.len()
}

/// How many digits stand before the point, and how many after it.
fn digits_around_point(word: &[u8]) -> (usize, usize)
    ensures units { result.0 ≡ units_of word.now }
    ensures places { result.1 ≡ places_of word.now }
{
    let at = point_at(word);
    let units = count_digits(&word[..at]);
    let places = if at < word.len() {
        count_digits(&word[at + 1..])
    } else {
        0
    };
    (units, places)
}

fn whole(word: &[u8]) -> Option<TokenKind>
    ensures { result ≡ token_of Form.Whole word.now }
{
    let number = capped_number(word);
    if number > i64::MAX as u128 {
        return None;
    }
    Some(TokenKind::Int(Whole::new(number as i64)?))
}

/// The number of at most 18 digits.
#[tactic(auto, using(crate::proofs::Numbers::short))]
fn short_number(word: &[u8]) -> u64
    requires { units_of word.now + places_of word.now ≤ 18 }
    ensures { result ≡ number_of word.now }
{
    capped_number(word) as u64
}

#[tactic(auto, using(crate::proofs::Numbers::decimal_written))]
fn decimal(word: &[u8]) -> Option<TokenKind>
    ensures { result ≡ token_of Form.Decimal word.now }
{
    let (units, places) = digits_around_point(word);
    if units > 9 || places > 9 {
        return None;
    }
    Some(TokenKind::Dec(DecimalLiteral::new(short_number(word), places as u32)?))
}

#[tactic(auto, using(crate::proofs::Numbers::percent_written))]
fn percent(word: &[u8]) -> Option<TokenKind>
    ensures { result ≡ token_of Form.Percent word.now }
{
    let (units, places) = digits_around_point(word);
    if units > 9 || places > 7 {
        return None;
    }
    Some(TokenKind::Pct(DecimalLiteral::new(short_number(word), places as u32 + 2)?))
}

fn amount(word: &[u8]) -> Option<TokenKind>
    ensures { result ≡ token_of Form.Amount word.now }
{
    let (_, places) = digits_around_point(word);
    let scale = match places {
        0 => 100,
        1 => 10,
        _ => 1,
    };
    let cents = capped_number(word) * scale;
    if cents > i64::MAX as u128 {
        return None;
    }
    Some(TokenKind::Money(Money::new(cents as i64)?))
}

/// The day between the two bars.
#[tactic(auto, using(crate::proofs::Dates::short_no_day))]
fn date(word: &[u8]) -> Option<TokenKind>
    ensures { result ≡ token_of Form.Date word.now }
{
    let Some(text) = word.get(1..11) else {
        return None;
    };
    match read_day(text) {
        Ok(day) => Some(TokenKind::Date(day)),
        Err(_) => None,
    }
}

/// The token that a spelling of this form is; `None` where it passes a bound.
pub(crate) fn token_kind<'a>(
    alloc: Global,
    names: &mut Names<'a>,
    form: Form,
    word: &'a str,
) -> Result<Option<TokenKind>, AllocError>
    ensures { IfOk result (λ kind. kind ≡ token_of form word.now) }
{
    let bytes = word.as_bytes();
    let kind = match form {
        Form::TypeWord => Some(TokenKind::Upper(names.text(alloc, word)?)),
        Form::Word => match keyword(word) {
            Some(keyword) => Some(TokenKind::Word(keyword)),
            None => Some(TokenKind::Lower(names.text(alloc, word)?)),
        },
        Form::Pair(keyword) => Some(TokenKind::Pair(keyword)),
        Form::Whole => whole(bytes),
        Form::Decimal => decimal(bytes),
        Form::Percent => percent(bytes),
        Form::Amount => amount(bytes),
        Form::Date => date(bytes),
        Form::Mark(symbol) => Some(TokenKind::Symbol(symbol)),
    };
    Ok(kind)
}
