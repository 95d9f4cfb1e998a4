//! Texts and bytes as a line spells them.

use crate::problem::Problem;
use std::alloc::{AllocError, Global};

/// The text in which `\n`, `\r` and `\t` stand for a line feed, a carriage return and a tab.
pub fn spelled(alloc: Global, text: &str) -> Result<String, AllocError> {
    let text = text.replace(alloc, "\\n", "\n")?;
    let text = text.replace(alloc, "\\r", "\r")?;
    text.replace(alloc, "\\t", "\t")
}

/// The bytes of a text in which the mark and two hexadecimal digits stand for a byte.
pub fn with_bytes(alloc: Global, text: &str, mark: &str) -> Result<Vec<u8>, Problem> {
    let mut bytes = Vec::new(alloc);
    let mut parts = text.split(mark);
    let front = parts.next().unwrap_or("");
    bytes.extend_from_slice(front.as_bytes())?;
    for part in parts {
        let (digits, rest) = part.split_at_checked(2).ok_or(Problem::Unreadable)?;
        let byte = u8::from_str_radix(digits, 16).ok();
        bytes.push(byte.ok_or(Problem::Unreadable)?)?;
        bytes.extend_from_slice(rest.as_bytes())?;
    }
    Ok(bytes)
}

/// The bytes of a source, spelled with `\n`, `\r` and `\t`, and with `\xff` for a byte.
pub fn source_bytes(alloc: Global, text: &str) -> Result<Vec<u8>, Problem> {
    let text = spelled(alloc, text)?;
    with_bytes(alloc, text.as_str(), "\\x")
}

/// What stands in front of the first mark and behind it.
pub fn halves<'a>(text: &'a str, mark: &str) -> Result<(&'a str, &'a str), Problem> {
    text.split_once(mark).ok_or(Problem::Unreadable)
}

/// The text `middle`, with others in front of it and behind it as often as told.
pub fn around(
    alloc: Global,
    times: u32,
    before: &str,
    middle: &str,
    behind: &str,
) -> Result<String, AllocError> {
    let mut text = String::new(alloc);
    push_times(&mut text, times, before)?;
    text.push_str(middle)?;
    push_times(&mut text, times, behind)?;
    Ok(text)
}

fn push_times(text: &mut String, times: u32, part: &str) -> Result<(), AllocError> {
    for _ in 0..times {
        text.push_str(part)?;
    }
    Ok(())
}
