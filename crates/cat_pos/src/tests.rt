use crate::{Boxed, Files, List, Pos, Text, pos_at, show_pos};
use std::process::Abort;
use std::test::Fail;

// What `printf 'ab\n\ncd' | head -c N` shows, counted with `wc -l` and by hand.
#[test]
fn positions_count_line_feeds_and_bytes(rt: HostRuntime) -> Result<(), Fail> {
    let text = b"ab\n\ncd";
    let positions = [(1, 1), (1, 2), (1, 3), (2, 1), (3, 1), (3, 2), (3, 3)];
    for (offset, (line, column)) in positions.iter().enumerate() {
        let pos = pos_at(text, 7, offset);
        assert_eq!(rt; pos, Pos::new(7, *line, *column));
    }
    Ok(())
}

#[test]
fn lists_boxes_texts_and_files_keep_what_they_are_given(rt: HostRuntime) -> Result<(), Fail> {
    let alloc = rt.alloc();
    let mut list = List::new(alloc);
    list.push(3u32)?;
    list.push(5)?;
    assert_eq!(rt; list.as_slice(), [3u32, 5].as_slice());
    list.set(0, 4);
    list.append(List::from_slice(alloc, &[6, 7])?)?;
    assert_eq!(rt; list.pop(), Some(7));
    assert_eq!(rt; list.as_slice(), [4u32, 5, 6].as_slice());
    let boxed = Boxed::new(alloc, 8u32)?;
    assert_eq!(rt; *boxed.get(), 8);
    assert_eq!(rt; boxed.into_inner(), 8);
    let text = Text::from_str(alloc, "é")?.copy()?;
    assert!(rt; text.is("é"));
    let mut files = Files::new(alloc);
    assert_eq!(rt; files.add("a.md")?, 0);
    assert_eq!(rt; files.add("b.md")?, 1);
    assert_eq!(rt; files.len(), 2);
    assert_eq!(rt; files.name(0), "a.md");
    let shown = show_pos(alloc, &files, Pos::new(1, 12, 345))?;
    assert_eq!(rt; shown.as_str(), "b.md:12:345");
    Ok(())
}
