// Words, numbers and positions of a line.
ghost use Rattle.std.specs.Prelude.{◌≡◌, ◌≤◌, ◌<◌, ◌&&◌, nat_le, ◌==◌, length};
ghost use Rattle.std.specs.List.{prefix_len};
ghost use Rattle.std.specs.Option.{option_map};
ghost use Rattle.std.specs.Str.{bytes_eq};
ghost use Rattle.cat_image.specs.Words.{words, has_bytes, is_name, is_type, is_what, are_types_of, is_followed};
ghost use Rattle.cat_image.specs.Words.{begin_list};
ghost use Rattle.cat_image.specs.inside.Reads.{cut, is_other, digits_after, is_plain, number_of, pos_of, element_of};
ghost use Rattle.cat_image.specs.inside.Reads.{passed, params_by, named_by};

use crate::ImagePos;

/// Where the first byte of that kind stands, or the length. It is a loop of its own, in which nothing else is counted.
#[inline(never)]
#[tactic(auto, using(crate::proofs::FeedLemmas::firsts))]
fn first_of(bytes: &[u8], byte: u8) -> usize
    ensures place { result ≡ prefix_len (is_other byte) bytes.now }
    ensures within { result ≤ length bytes.now }
{
    let mut at = 0;
    while at < bytes.len() && bytes[at] != byte {
        at += 1;
    }
    at
}

/// A text up to its first byte of that kind, which is ASCII, and what stands behind it.
fn at_byte(text: &str, byte: u8) -> Option<(&str, &str)>
    requires { byte < 128 }
    ensures { option_map (λ parts. (parts.0.now, parts.1.now)) result ≡ cut byte text.now }
{
    let place = first_of(text.as_bytes(), byte);
    if place == text.len() {
        return None;
    }
    Some((&text[..place], &text[place + 1..]))
}

/// A text up to its first blank, and what stands behind it.
pub(crate) fn at_blank(text: &str) -> Option<(&str, &str)>
    ensures { option_map (λ parts. (parts.0.now, parts.1.now)) result ≡ cut 32 text.now }
{
    at_byte(text, b' ')
}

/// A text up to its first colon, and what stands behind it.
fn at_colon(text: &str) -> Option<(&str, &str)>
    ensures { option_map (λ parts. (parts.0.now, parts.1.now)) result ≡ cut 58 text.now }
{
    at_byte(text, b':')
}

pub(crate) fn is(text: &str, word: &str) -> bool
    ensures { result ≡ bytes_eq text.now word.now }
{
    text == word
}

/// The number that digits are, where it fits.
#[tactic(auto, using(crate::proofs::DigitLemmas::digits), unfolding(crate::specs::inside::Reads::digits_after))]
fn digits(text: &[u8]) -> Option<u32>
    ensures { result ≡ digits_after text.now 0 }
{
    let mut number: u32 = 0;
    for &byte in text {
        if !byte.is_ascii_digit() {
            return None;
        }
        let more = number.checked_mul(10)?;
        number = more.checked_add((byte - b'0') as u32)?;
    }
    Some(number)
}

/// Digits of which the first is no zero, but where it stands alone.
fn is_plain(text: &[u8]) -> bool
    ensures { result ≡ is_plain text.now }
{
    match text {
        [] => false,
        [_] => true,
        [first, ..] => *first != b'0',
    }
}

#[tactic(auto, unfolding(crate::specs::inside::Reads::number_of))]
fn number_in(text: &[u8]) -> Option<u32>
    ensures { result ≡ number_of text.now }
{
    if is_plain(text) { digits(text) } else { None }
}

/// A number as plain decimals, without a zero in front.
pub(crate) fn number(text: &str) -> Option<u32>
    ensures { result ≡ number_of text.now }
{
    number_in(text.as_bytes())
}

/// A position, its numbers parted by colons.
#[tactic(auto, unfolding(crate::specs::inside::Reads::pos_of))]
pub(crate) fn pos(text: &str) -> Option<ImagePos>
    ensures { result ≡ pos_of text.now }
{
    let (file, rest) = at_colon(text)?;
    let (line, column) = at_colon(rest)?;
    let file = number(file)?;
    let line = number(line)?;
    let column = number(column)?;
    Some(ImagePos { file, line, column })
}

pub(crate) fn has_bytes(text: &str) -> bool
    ensures { result ≡ has_bytes text.now }
{
    !text.is_empty()
}

/// A text without a blank, which isn't empty.
pub(crate) fn is_name(text: &str) -> bool
    ensures { result ≡ is_name text.now }
{
    match at_blank(text) {
        Some(_) => false,
        None => has_bytes(text),
    }
}

/// What stands behind `list of`.
#[tactic(auto, unfolding(crate::specs::inside::Reads::element_of))]
pub(crate) fn element_of(text: &str) -> Option<&str>
    ensures { option_map (λ element. element.now) result ≡ element_of text.now }
{
    let (list, rest) = at_blank(text)?;
    let (of, element) = at_blank(rest)?;
    if is(list, "list") && is(of, "of") {
        Some(element)
    } else {
        None
    }
}

/// A name behind any number of `list of`.
pub(crate) fn is_type(text: &str) -> bool
    ensures { result ≡ is_type text.now }
{
    let mut rest = text;
    while let Some(element) = element_of(rest) {
        rest = element;
    }
    is_name(rest)
}

/// A name with a comma behind it.
fn is_followed(word: &[u8]) -> bool
    ensures { result ≡ is_followed word.now }
{
    word.len() > 1 && word[word.len() - 1] == b','
}

/// What stands behind a type with a comma, or behind `list of`.
#[tactic(auto, unfolding(crate::specs::inside::Reads::passed))]
fn passed(text: &str) -> Option<&str>
    ensures { option_map (λ rest. rest.now) result ≡ passed text.now }
{
    let (word, rest) = at_blank(text)?;
    if is_followed(word.as_bytes()) {
        return Some(rest);
    }
    element_of(text)
}

/// Types that are parted by commas.
fn are_types(text: &str) -> bool
    ensures { result ≡ are_types_of (words text.now) }
{
    let mut rest = text;
    while let Some(more) = passed(rest) {
        rest = more;
    }
    is_name(rest)
}

/// Types behind `of`.
fn has_params(text: &str) -> bool
    ensures { result ≡ params_by (cut 32 text.now) }
{
    match at_blank(text) {
        Some((of, types)) => is(of, "of") && are_types(types),
        None => false,
    }
}

/// A name, and behind it the types of parameters, where there are some.
fn is_named(text: &str) -> bool
    ensures { result ≡ named_by text.now (cut 32 text.now) }
{
    match at_blank(text) {
        Some((name, rest)) => has_bytes(name) && has_params(rest),
        None => has_bytes(text),
    }
}

/// Whether `list` is a name, with types of parameters behind its `of`.
fn names_list(is_list: bool, rest: &str) -> bool
    ensures { result ≡ (is_list && are_types_of (words rest.now)) }
{
    is_list && are_types(rest)
}

/// A type, and behind it the types of parameters, where there are some.
pub(crate) fn is_what(text: &str) -> bool
    ensures { result ≡ is_what text.now }
{
    let mut rest = text;
    let mut is_list = false;
    while let Some(element) = element_of(rest) {
        rest = element;
        is_list = true;
    }
    if names_list(is_list, rest) {
        return true;
    }
    is_named(rest)
}
