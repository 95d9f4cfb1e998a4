//! Calls that weave a source, which is file 7.

use cat_pos::{MOST_FILE_BYTES, Pos};
use cat_rows::{Arguments, Problem, add, show_pos, source_bytes, spot};
use cat_weave::{Segment, Segments, WeaveRefusal, weave};
use std::alloc::{AllocError, Global};

/// The segments of a source, or the refusal.
pub fn weave_answer(alloc: Global, given: &mut Arguments<'_>) -> Result<String, Problem> {
    let bytes = source_bytes(alloc, given.rest())?;
    if bytes.len() > MOST_FILE_BYTES {
        return Err(Problem::Unreadable);
    }
    match weave(alloc, &bytes, 7) {
        Ok(woven) => Ok(shown(alloc, &woven.segments)?),
        Err(WeaveRefusal::NotUtf8(pos)) => Ok(placed(alloc, "NotUtf8", pos)?),
        Err(WeaveRefusal::FenceOpen(pos)) => Ok(placed(alloc, "FenceOpen", pos)?),
        Err(WeaveRefusal::Memory) => Err(Problem::Memory),
    }
}

fn shown(alloc: Global, segments: &Segments) -> Result<String, AllocError> {
    let mut text = String::new(alloc);
    for segment in segments.as_slice() {
        add(&mut text, " | ", segment_shown(alloc, segment)?.as_str())?;
    }
    Ok(text)
}

fn segment_shown(alloc: Global, segment: &Segment) -> Result<String, AllocError> {
    match segment {
        Segment::Code(piece) => spot(alloc, "code", piece.pos, piece.text.as_str()),
        Segment::Heading(level, text, pos) => {
            let front = format!(in alloc; "heading {level}")?;
            spot(alloc, front.as_str(), *pos, text.as_str())
        }
        Segment::Include(path, pos) => spot(alloc, "include", *pos, path.as_str()),
    }
}

fn placed(alloc: Global, what: &str, pos: Pos) -> Result<String, AllocError> {
    let pos = show_pos(alloc, pos)?;
    format!(in alloc; "{what} {pos}")
}
