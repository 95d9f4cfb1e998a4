// What is read of one line.
ghost use Rattle.std.specs.Prelude.{◌≡◌, ◌≤◌, ◌++◌, nat_eq, drop, length};
ghost use Rattle.std.specs.List.{starts_with};
ghost use Rattle.std.specs.Str.{bytes_eq, is_utf8};
ghost use Rattle.cat_cert.specs.inside.LineForms.{digits_after, is_plain, number_of, numbered, node_of};
ghost use Rattle.cat_cert.specs.inside.LineForms.{name_line, list_begun};

use cat_guard::CitedNode;

pub(crate) fn is(line: &[u8], word: &str) -> bool
    ensures { result ≡ bytes_eq line.now word.now }
{
    line == word.as_bytes()
}

pub(crate) fn begins(line: &[u8], word: &str) -> bool
    ensures { result ≡ starts_with nat_eq line.now word.now }
{
    line.starts_with(word.as_bytes())
}

/// The number that digits are, where it fits.
#[tactic(auto, using(crate::proofs::DigitLemmas::digits), unfolding(crate::specs::inside::LineForms::digits_after))]
fn digits(text: &[u8]) -> Option<usize>
    ensures { result ≡ digits_after text.now 0 }
{
    let mut number: usize = 0;
    for &byte in text {
        if !byte.is_ascii_digit() {
            return None;
        }
        let more = number.checked_mul(10)?;
        number = more.checked_add((byte - b'0') as usize)?;
    }
    Some(number)
}

fn is_plain(text: &[u8]) -> bool
    ensures { result ≡ is_plain text.now }
{
    match text {
        [] => false,
        [_] => true,
        [first, ..] => *first != b'0',
    }
}

#[tactic(auto, unfolding(crate::specs::inside::LineForms::number_of))]
fn number(text: &[u8]) -> Option<usize>
    ensures { result ≡ number_of text.now }
{
    if is_plain(text) { digits(text) } else { None }
}

/// The number behind a word.
#[tactic(auto, unfolding(crate::specs::inside::LineForms::numbered))]
pub(crate) fn numbered(line: &[u8], word: &str) -> Option<usize>
    ensures { result ≡ numbered word.now line.now }
{
    if begins(line, word) {
        number(&line[word.len()..])
    } else {
        None
    }
}

/// The line of the name of that number.
fn is_name(line: &[u8], name: usize) -> bool
    ensures { result ≡ bytes_eq line.now (name_line name) }
{
    match numbered(line, "name ") {
        Some(found) => found == name,
        None => false,
    }
}

/// Which list of a tree a line begins, where so many are named: the tree itself, or the next named one.
pub(crate) fn list_begun(line: &[u8], count: usize) -> Option<bool>
    ensures { result ≡ list_begun count line.now }
{
    if is(line, "tree") {
        return Some(true);
    }
    if is_name(line, count) {
        return Some(false);
    }
    None
}

/// The line of a word and a name.
pub(crate) fn is_heading(line: &[u8], word: &str, name: &str) -> bool
    ensures { result ≡ bytes_eq line.now (word.now ++ name.now) }
{
    if !begins(line, word) {
        return false;
    }
    is_rest(line, word.len(), name)
}

/// The bytes from there on are a name.
fn is_rest(line: &[u8], start: usize, name: &str) -> bool
    requires { start ≤ length line.now }
    ensures { result ≡ bytes_eq (drop start line.now) name.now }
{
    is(&line[start..], name)
}

pub(crate) fn is_text(line: &[u8]) -> bool
    ensures { result ≡ is_utf8 line.now }
{
    match str::from_utf8(line) {
        Ok(_) => true,
        Err(_) => false,
    }
}

/// The node that a line is.
#[tactic(auto, unfolding(crate::specs::inside::LineForms::node_of))]
pub(crate) fn node_of(line: &[u8]) -> Option<CitedNode>
    ensures { result ≡ node_of line.now }
{
    if is(line, "leaf") {
        return Some(CitedNode::Leaf);
    }
    if let Some(atom) = numbered(line, "split ") {
        return Some(CitedNode::Split(atom));
    }
    match numbered(line, "cite ") {
        Some(name) => Some(CitedNode::Cite(name)),
        None => None,
    }
}
