//! Trees of includes over shelves in memory, and what gathering them gives.
use crate::{GatherRefusal, Source, gather};
use cat_io::{MemShelf, Shelf};
use cat_pos::Pos;
use std::alloc::{AllocError, Global};
use std::process::Abort;
use std::test::Fail;

type Stored = Vec<(String, Vec<u8>)>;

fn stored(alloc: Global, files: &[(&str, &str)]) -> Result<Stored, AllocError> {
    let mut all = Vec::new(alloc);
    for (name, content) in files {
        let entry = (
            String::from_str(alloc, name)?,
            Vec::from_slice(alloc, content.as_bytes())?,
        );
        all.push(entry)?;
    }
    Ok(all)
}

fn at(alloc: Global, what: &str, name: &str, pos: Pos) -> Result<String, AllocError> {
    let (file, line, column) = (pos.file(), pos.line, pos.column());
    format!(in alloc; "{what} {name} {file}:{line}:{column}")
}

fn source_shown(alloc: Global, source: &Source) -> Result<String, AllocError> {
    let mut all = String::new(alloc);
    for piece in source.pieces.as_slice() {
        let part = at(alloc, "code", piece.text.as_str(), piece.pos)?;
        all.push_str(part.as_str())?;
        all.push_str(";")?;
    }
    for heading in source.headings.as_slice() {
        let (pieces, level) = (heading.pieces, heading.level);
        let part = at(alloc, "heading", heading.text.as_str(), heading.pos)?;
        let part = format!(in alloc; "{pieces} {level} {part};")?;
        all.push_str(part.as_str())?;
    }
    Ok(all)
}

/// What is gathered, or why it can't be.
fn shown<S: Shelf>(alloc: Global, shelf: &mut S, main: &str) -> Result<String, AllocError> {
    match gather(alloc, shelf, main) {
        Ok(source) => source_shown(alloc, &source),
        Err(GatherRefusal::ReadFault(name)) => {
            let name = name.as_str();
            format!(in alloc; "fault {name}")
        }
        Err(_) => String::from_str(alloc, "another refusal"),
    }
}

/// Gathers, and compares what is shown.
fn expect<S: Shelf, R: Abort>(
    rt: &R,
    alloc: Global,
    shelf: &mut S,
    main: &str,
    want: &str,
) -> Result<(), AllocError> {
    let got = shown(alloc, shelf, main)?;
    assert!(rt; got.as_str() == want, "{want}: {got}");
    Ok(())
}

/// A main file with two includes, of which the first has one too.
const TREE: [(&str, &str); 4] = [
    (
        "a",
        "# A\n> Include: b\n```catala\na1\n```\n> Include: c\n```catala\na2\n```\n",
    ),
    (
        "b",
        "```catala\nb1\n```\n> Include: d\n```catala\nb2\n```\n## B\n",
    ),
    ("c", "```catala\nc1\n```\n"),
    ("d", "### D\n```catala\nd1\n```\n"),
];

const GATHERED: &str =
    "code b1\n 1:2:1;code d1\n 2:3:1;code b2\n 1:6:1;code a1\n 0:4:1;code c1\n 3:2:1;code a2\n 0:8:1;0 1 heading A 0:1:1;1 3 heading D 2:1:1;3 2 heading B 1:8:1;";

/// The files of the tree in the order in which they are read, the last standing for none.
const READS: [&str; 4] = ["a", "b", "d", "c"];

#[test]
fn includes_stand_in_place_and_each_read_may_fail(rt: HostRuntime) -> Result<(), Fail> {
    let alloc = rt.alloc();
    let mut shelf = MemShelf::new(alloc, stored(alloc, &TREE)?, Vec::new(alloc));
    expect(&rt, alloc, &mut shelf, "a", GATHERED)?;
    for (number, name) in READS.iter().enumerate() {
        let failing = Vec::from_slice(alloc, &[number as u64 + 1])?;
        let mut shelf = MemShelf::new(alloc, stored(alloc, &TREE)?, failing);
        let want = format!(in alloc; "fault {name}")?;
        expect(&rt, alloc, &mut shelf, "a", want.as_str())?;
    }
    let mut shelf = MemShelf::new(alloc, stored(alloc, &TREE)?, Vec::from_slice(alloc, &[5])?);
    expect(&rt, alloc, &mut shelf, "a", GATHERED)?;
    Ok(())
}
