// Reads a listing line by line.
ghost use Rattle.std.specs.Prelude.{◌≡◌, ◌≤◌, ◌<◌, ◌+◌, IfOk, IfErr, IfSome, length, codes};
ghost use Rattle.std.specs.Option.{option_map};
ghost use Rattle.std.specs.Str.{bytes_eq};
ghost use Rattle.cat_pos.specs.Limits.{most_input_bytes};
ghost use Rattle.cat_image.specs.Words.{parts};
ghost use Rattle.cat_image.specs.Image.{IsImage};
ghost use Rattle.cat_image.specs.Refused.{HasCause};
ghost use Rattle.cat_image.specs.inside.Reads.{cut};
ghost use Rattle.cat_image.specs.inside.Reading.{Takes, nothing_read};
ghost use Rattle.cat_image.specs.inside.Endings as words;

use crate::reading::{Reading, nothing_read, put};
use crate::rows::row_read;
use crate::{Image, ImageNames, ImageRefusal};
use memchr::memchr;
use std::alloc::{AllocError, Global};

/// The first line of a text, without its line feed, and what stands behind that.
fn next_line(bytes: &[u8]) -> Option<(&[u8], &[u8])>
    ensures cut { option_map (λ parts. (parts.0.now, parts.1.now)) result ≡ cut 10 bytes.now }
    ensures shorter { IfSome result (λ parts. length parts.1.now < length bytes.now) }
{
    let Some(feed) = memchr(b'\n', bytes) else {
        return None;
    };
    Some((&bytes[..feed], &bytes[feed + 1..]))
}

fn is_first(line: &[u8]) -> bool
    ensures { result ≡ bytes_eq line.now (codes "catala-code 1") }
{
    line == "catala-code 1".as_bytes()
}

/// A line as text, where it is UTF-8.
fn text_in(line: &[u8]) -> Option<&str>
    ensures { option_map (λ text. text.now) result ≡ words.text_in line.now }
{
    match str::from_utf8(line) {
        Ok(text) => Some(text),
        Err(_) => None,
    }
}

/// Takes a line; whether it is of a form that is due.
fn take_line(
    alloc: Global,
    types: &mut ImageNames,
    reading: &mut Reading,
    line: &[u8],
) -> Result<bool, AllocError>
    ensures { IfOk result (λ taken. Takes (words.taken reading.old line.now) taken reading.new) }
{
    let Some(text) = text_in(line) else {
        return Ok(false);
    };
    let row = row_read(alloc, types, text)?;
    let Some(row) = row else {
        return Ok(false);
    };
    put(alloc, reading, row)
}

/// What was read, where nothing stands behind its last line and an instruction is there.
fn ended(reading: Reading, rest: &[u8]) -> Result<Reading, ImageRefusal>
    ensures { words.EndsSo (words.ended reading reading.instructions rest.now) result }
{
    if reading.instructions.is_empty() {
        return Err(ImageRefusal::Short);
    }
    if !rest.is_empty() {
        return Err(ImageRefusal::Short);
    }
    Ok(reading)
}

/// Takes the lines behind the first one.
fn take_lines(alloc: Global, bytes: &[u8]) -> Result<Reading, ImageRefusal>
    requires { length bytes.now ≤ most_input_bytes }
    ensures { words.EndsSo (words.ending (parts 10 bytes.now) nothing_read 1) result }
{
    let mut reading = nothing_read(alloc);
    let mut types = ImageNames::new(alloc);
    let mut rest = bytes;
    let mut number: usize = 1;
    while let Some((line, more)) = next_line(rest) {
        number += 1;
        let taken = take_line(alloc, &mut types, &mut reading, line)?;
        if !taken {
            return Err(ImageRefusal::BadLine(number));
        }
        rest = more;
    }
    ended(reading, rest)
}

/// Reads all lines.
fn read(alloc: Global, bytes: &[u8]) -> Result<Reading, ImageRefusal>
    requires { length bytes.now ≤ most_input_bytes }
    ensures { words.EndsSo (words.whole_ending (parts 10 bytes.now)) result }
{
    let Some((line, rest)) = next_line(bytes) else {
        return Err(ImageRefusal::Short);
    };
    if !is_first(line) {
        return Err(ImageRefusal::BadLine(1));
    }
    take_lines(alloc, rest)
}

/// Reads a listing: its tables as words, and its instructions. A refusal names the first line that isn't of a form due
/// there. It takes a step for each byte.
pub fn read_listing(alloc: Global, bytes: &[u8]) -> Result<Image, ImageRefusal>
    requires { length bytes.now ≤ most_input_bytes }
    ensures read { IfOk result (λ image. IsImage bytes.now image.tables image.instructions) }
    ensures cause { IfErr result (HasCause bytes.now) }
{
    let reading = read(alloc, bytes)?;
    let Reading {
        tables,
        instructions,
        section: _,
    } = reading;
    Ok(Image::from_parts(tables, instructions))
}
