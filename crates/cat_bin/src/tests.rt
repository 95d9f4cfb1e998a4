// The top call over files and an output in memory.
use cat_app::{Status, catala};
use cat_io::{MemShelf, MemSink, PureShelf, PureSink};
use std::alloc::{AllocError, Global};
use std::process::Abort;
use std::test::Fail;

const BANDS: &str = "```catala
declaration scope S:
  input n content integer
  output x content integer
scope S:
  definition x under condition n >= 0 consequence equals 1
  definition x under condition n <= 0 consequence equals 2
```
";

fn words_of(alloc: Global, words: &[&str]) -> Result<Vec<String>, AllocError> {
    let mut texts = Vec::new(alloc);
    for word in words {
        texts.push(String::from_str(alloc, word)?)?;
    }
    Ok(texts)
}

fn files(alloc: Global, input: &str) -> Result<Vec<(String, Vec<u8>)>, AllocError> {
    let mut files = Vec::new(alloc);
    files.push((
        String::from_str(alloc, "a.md")?,
        BANDS.as_bytes().to_vec(alloc)?,
    ))?;
    files.push((
        String::from_str(alloc, "-")?,
        input.as_bytes().to_vec(alloc)?,
    ))?;
    Ok(files)
}

#[test]
fn a_run_writes_its_outcome_and_its_status(rt: HostRuntime) -> Result<(), Fail> {
    let alloc = rt.alloc();
    let words = words_of(alloc, &["run", "S", "a.md"])?;
    let mut shelf = PureShelf::new(alloc, files(alloc, "{\"n\":0}")?);
    let mut sink = PureSink::new(alloc, 100)?;
    let ended = catala(alloc, &words, &mut shelf, &mut sink);
    assert_eq!(rt; ended, Status::Conflict);
    assert_eq!(rt;
        sink.taken(),
        b"conflict S.x at a.md:6:3 a.md:7:3\n".as_slice()
    );
    Ok(())
}

#[test]
fn listed_reads_and_puts_fail(rt: HostRuntime) -> Result<(), Fail> {
    let alloc = rt.alloc();
    let words = words_of(alloc, &["run", "S", "a.md"])?;
    let mut shelf = MemShelf::new(alloc, files(alloc, "{\"n\":5}")?, vec![in alloc; 1, 3]?);
    let mut sink = MemSink::new(alloc, 100, vec![in alloc; 3]?)?;
    let first = catala(alloc, &words, &mut shelf, &mut sink);
    assert_eq!(rt; first, Status::ReadFault);
    let second = catala(alloc, &words, &mut shelf, &mut sink);
    assert_eq!(rt; second, Status::ReadFault);
    let third = catala(alloc, &words, &mut shelf, &mut sink);
    assert_eq!(rt; third, Status::WriteFault);
    assert_eq!(rt; sink.taken(), b"read fault a.md\nread fault -\n".as_slice());
    let fourth = catala(alloc, &words, &mut shelf, &mut sink);
    assert_eq!(rt; fourth, Status::Fine);
    Ok(())
}

#[test]
fn a_reply_past_the_room_is_not_taken(rt: HostRuntime) -> Result<(), Fail> {
    let alloc = rt.alloc();
    let words = words_of(alloc, &["run", "S", "a.md"])?;
    let mut shelf = PureShelf::new(alloc, files(alloc, "{\"n\":5}")?);
    let mut sink = PureSink::new(alloc, 7)?;
    assert_eq!(rt;
        catala(alloc, &words, &mut shelf, &mut sink),
        Status::WriteFault
    );
    assert_eq!(rt; sink.taken(), b"".as_slice());
    assert_eq!(rt; sink.spare(), 7);
    Ok(())
}
