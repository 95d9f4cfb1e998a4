//! Calls that gather files of a shelf in memory: the name of the main file, and then `NAME=CONTENT` for each file, with
//! `\/` between.

use cat_io::PureShelf;
use cat_pos::{Pos, Text};
use cat_rows::{Arguments, Problem, add, halves, show_pos, source_bytes, spot};
use cat_weave::{GatherRefusal, Source, gather};
use std::alloc::{AllocError, Global};

type Stored = Vec<(String, Vec<u8>)>;

/// The pieces and headings of the main file and all that it includes, or the refusal.
pub fn gather_answer(alloc: Global, given: &mut Arguments<'_>) -> Result<String, Problem> {
    let main = given.word();
    let mut files = Vec::new(alloc);
    for file in given.rest().split("\\/") {
        let (name, content) = halves(file, "=")?;
        let name = String::from_str(alloc, name)?;
        files.push((name, content_of(alloc, content)?))?;
    }
    gathered(alloc, files, main)
}

/// The same of files 1 to `last`, each of which includes the next; the last one has code.
pub fn chain_answer(alloc: Global, given: &mut Arguments<'_>) -> Result<String, Problem> {
    let last = given.count()?;
    let mut files = Vec::new(alloc);
    for number in 1..last {
        let next = number.saturating_add(1);
        let content = format!(in alloc; "> Include: {next}\n")?;
        files.push(stored(alloc, number, content.as_str())?)?;
    }
    files.push(stored(alloc, last, "```catala\nend\n```\n")?)?;
    gathered(alloc, files, "1")
}

fn stored(alloc: Global, number: u32, content: &str) -> Result<(String, Vec<u8>), AllocError> {
    let content = Vec::from_slice(alloc, content.as_bytes())?;
    Ok((format!(in alloc; "{number}")?, content))
}

/// The bytes of a content, in front of which `\*5;` stands for five letters x.
fn content_of(alloc: Global, text: &str) -> Result<Vec<u8>, Problem> {
    let Some(long) = text.strip_prefix("\\*") else {
        return source_bytes(alloc, text);
    };
    let (size, text) = halves(long, ";")?;
    let size = Arguments::of(size).count()?;
    let mut bytes = vec![in alloc; b'x'; size as usize]?;
    bytes.extend_from_slice(&source_bytes(alloc, text)?)?;
    Ok(bytes)
}

fn gathered(alloc: Global, files: Stored, main: &str) -> Result<String, Problem> {
    let mut shelf = PureShelf::new(alloc, files);
    match gather(alloc, &mut shelf, main) {
        Ok(source) => Ok(shown(alloc, &source)?),
        Err(refusal) => refused(alloc, &refusal),
    }
}

fn shown(alloc: Global, source: &Source) -> Result<String, AllocError> {
    let mut text = pieces_shown(alloc, source)?;
    for heading in source.headings.as_slice() {
        let (pieces, level) = (heading.pieces, heading.level);
        let front = format!(in alloc; "behind {pieces} heading {level}")?;
        let part = spot(alloc, front.as_str(), heading.pos, heading.text.as_str())?;
        add(&mut text, " | ", part.as_str())?;
    }
    Ok(text)
}

fn pieces_shown(alloc: Global, source: &Source) -> Result<String, AllocError> {
    let mut text = String::new(alloc);
    for piece in source.pieces.as_slice() {
        let part = spot(alloc, "code", piece.pos, piece.text.as_str())?;
        add(&mut text, " | ", part.as_str())?;
    }
    Ok(text)
}

fn refused(alloc: Global, refusal: &GatherRefusal) -> Result<String, Problem> {
    match refusal {
        GatherRefusal::NotUtf8(name, pos) => Ok(at(alloc, "NotUtf8", name, *pos)?),
        GatherRefusal::FenceOpen(name, pos) => Ok(at(alloc, "FenceOpen", name, *pos)?),
        GatherRefusal::IncludeTwice(name, pos) => Ok(at(alloc, "IncludeTwice", name, *pos)?),
        GatherRefusal::Missing(name) => Ok(of(alloc, "Missing", name)?),
        GatherRefusal::ReadFault(name) => Ok(of(alloc, "ReadFault", name)?),
        GatherRefusal::TooLarge(name) => Ok(of(alloc, "TooLarge", name)?),
        GatherRefusal::Memory => Err(Problem::Memory),
    }
}

fn at(alloc: Global, what: &str, name: &Text, pos: Pos) -> Result<String, AllocError> {
    let pos = show_pos(alloc, pos)?;
    let name = name.as_str();
    format!(in alloc; "{what} {name} {pos}")
}

fn of(alloc: Global, what: &str, name: &Text) -> Result<String, AllocError> {
    let name = name.as_str();
    format!(in alloc; "{what} {name}")
}
