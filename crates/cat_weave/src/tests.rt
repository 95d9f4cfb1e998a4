//! Sources by the kinds of their lines, and what they are woven to.
use crate::{Segment, Segments, WeaveRefusal, weave};
use cat_pos::Pos;
use std::alloc::{AllocError, Global};
use std::process::Abort;
use std::test::Fail;

/// The segments, one after another: what each is, its line and column, and its text.
fn shown(alloc: Global, segments: &Segments) -> Result<String, AllocError> {
    let mut all = String::new(alloc);
    for segment in segments.as_slice() {
        let text = match segment {
            Segment::Code(piece) => {
                let (line, column, text) = (
                    piece.pos.line,
                    piece.pos.column(),
                    piece.text.as_str(),
                );
                format!(in alloc; "code {line}:{column} {text};")?
            }
            Segment::Heading(level, text, pos) => {
                let (line, column, text) = (pos.line, pos.column(), text.as_str());
                format!(in alloc; "{level} {line}:{column} {text};")?
            }
            Segment::Include(path, pos) => {
                let (line, column, path) = (pos.line, pos.column(), path.as_str());
                format!(in alloc; "include {line}:{column} {path};")?
            }
        };
        all.push_str(text.as_str())?;
    }
    Ok(all)
}

#[test]
fn a_source_is_woven_by_its_lines(rt: HostRuntime) -> Result<(), Fail> {
    let alloc = rt.alloc();
    let source =
        b"# a \t\r\n> Include:  \tb c.md\n```catala-metadata\n# d\n``` \r\n####### e\n```catala\n```\n";
    let woven = weave(alloc, source, 7)?;
    let got = shown(alloc, &woven.segments)?;
    assert!(rt;
        got.as_str() == "1 1:1 a;include 2:1 b c.md;code 4:1 # d\n;",
        "{got}"
    );
    Ok(())
}

// The position after the longest front that Python's `bytes.decode` takes; an opening line that nothing closes.
#[test]
fn a_faulty_source_is_refused_at_its_first_fault(rt: HostRuntime) -> Result<(), Fail> {
    let alloc = rt.alloc();
    let cut = weave(alloc, b"law\n```catala\n\xe2\x82", 7).err();
    let open = weave(alloc, b"```catala\n```\n```catala", 7).err();
    let pos = Pos::new(7, 3, 1);
    assert_eq!(rt; cut, Some(WeaveRefusal::NotUtf8(pos)));
    assert_eq!(rt; open, Some(WeaveRefusal::FenceOpen(pos)));
    Ok(())
}
