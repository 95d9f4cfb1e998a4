//! Each shelf and sink through its trait, and the system's files and output at its edge.
use crate::disk_shelf::read_to_limit;
use crate::{
    DiskShelf, Gathered, MemShelf, MemSink, PureShelf, PureSink, ShelfFault, Sink, SinkFault,
    StdSink, read_all,
};
use std::alloc::{AllocError, Global};
use std::cell::Cell;
use std::fmt::Display;
use std::io::{self, ErrorKind, Read};
use std::process::Abort;
use std::test::Fail;
use std::{fs, process};

fn put_into<K: Sink>(sink: &mut K, piece: &[u8]) -> Result<(), SinkFault> {
    sink.put(piece)
}

type Files = Vec<(String, Vec<u8>)>;

/// Two files of one name, and an empty one.
fn files(alloc: Global) -> Result<Files, AllocError> {
    let mut files = Vec::new(alloc);
    for (name, content) in [("a.md", "four"), ("a.md", "second"), ("é", "")] {
        let entry = (
            String::from_str(alloc, name)?,
            Vec::from_slice(alloc, content.as_bytes())?,
        );
        files.push(entry)?;
    }
    Ok(files)
}

#[test]
fn shelves_in_memory_answer_by_their_first_entry(rt: HostRuntime) -> Result<(), Fail> {
    let alloc = rt.alloc();
    let mut pure = PureShelf::new(alloc, files(alloc)?);
    let mut listed = MemShelf::new(alloc, files(alloc)?, Vec::from_slice(alloc, &[5, 7])?);
    for (name, limit, want) in [
        ("a.md", 4, Ok("four")),
        ("a.md", 3, Err(ShelfFault::Long)),
        ("é", 0, Ok("")),
        ("a.m", 9, Err(ShelfFault::Missing)),
    ] {
        let want = want.map(|text| text.as_bytes());
        let got = read_all(alloc, &mut pure, name, limit);
        assert!(rt;
            got.as_ref().map(|bytes| bytes.as_slice()) == want.as_ref().map(|bytes| *bytes),
            "{name}"
        );
        let got = read_all(alloc, &mut listed, name, limit);
        assert!(rt;
            got.as_ref().map(|bytes| bytes.as_slice()) == want.as_ref().map(|bytes| *bytes),
            "{name}"
        );
    }
    for want in [false, true, false, true] {
        let got = read_all(alloc, &mut listed, "a.md", 9);
        assert_eq!(rt; got.is_ok(), want);
    }
    Ok(())
}

#[test]
fn sinks_in_memory_take_what_fits(rt: HostRuntime) -> Result<(), Fail> {
    let alloc = rt.alloc();
    let mut pure = PureSink::new(alloc, 5)?;
    for (piece, want) in [
        ("abc", true),
        ("def", false),
        ("", true),
        ("de", true),
        ("f", false),
    ] {
        assert_eq!(rt;
            put_into(&mut pure, piece.as_bytes()).is_ok(),
            want,
            "{piece}"
        );
    }
    assert_eq!(rt; pure.taken(), b"abcde".as_slice());
    assert_eq!(rt; pure.spare(), 0);
    let mut listed = MemSink::new(alloc, 5, Vec::from_slice(alloc, &[2, 5])?)?;
    for (piece, want) in [
        ("abc", true),
        ("d", false),
        ("def", false),
        ("de", true),
        ("", false),
        ("", true),
    ] {
        assert_eq!(rt;
            put_into(&mut listed, piece.as_bytes()).is_ok(),
            want,
            "{piece}"
        );
    }
    assert_eq!(rt; listed.taken(), b"abcde".as_slice());
    Ok(())
}

#[test]
fn pieces_are_put_once_they_pass_64_kib(rt: HostRuntime) -> Result<(), Fail> {
    let alloc = rt.alloc();
    let mut sink = PureSink::new(alloc, 200_000)?;
    let mut gathered = Gathered::new(alloc);
    let mut all = Vec::new(alloc);
    for (byte, length, taken) in [
        (b'a', 0, 0),
        (b'b', 65_535, 0),
        (b'c', 1, 0),
        (b'd', 1, 65_536),
        (b'e', 65_536, 65_537),
        (b'f', 65_537, 196_610),
        (b'g', 3, 196_610),
    ] {
        let piece = vec![in alloc; byte; length]?;
        all.extend_from_slice(&piece)?;
        assert!(rt; gathered.add(&piece, &mut sink).is_ok(), "{length}");
        assert_eq!(rt; sink.taken().len(), taken, "{length}");
    }
    assert!(rt; gathered.put_all(&mut sink).is_ok());
    assert!(rt; sink.taken() == all.as_slice());
    Ok(())
}

#[test]
fn a_put_that_fails_leaves_nothing_gathered(rt: HostRuntime) -> Result<(), Fail> {
    let alloc = rt.alloc();
    let half = vec![in alloc; b'h'; 40_000]?;
    let long = vec![in alloc; b'l'; 65_537]?;
    for (first, second, third, want) in [
        (half.as_slice(), half.as_slice(), half.as_slice(), 40_001),
        (b"one".as_slice(), b"two".as_slice(), long.as_slice(), 7),
    ] {
        let mut sink = MemSink::new(alloc, 100_000, Vec::from_slice(alloc, &[2])?)?;
        let mut gathered = Gathered::new(alloc);
        assert!(rt; gathered.put_all(&mut sink).is_ok());
        assert!(rt; gathered.add(first, &mut sink).is_ok());
        assert!(rt; gathered.add(second, &mut sink).is_ok());
        assert!(rt; gathered.add(third, &mut sink).is_err());
        assert!(rt; gathered.put_all(&mut sink).is_ok());
        assert!(rt; gathered.add(b".", &mut sink).is_ok());
        assert!(rt; gathered.put_all(&mut sink).is_ok());
        assert_eq!(rt; sink.taken().len(), want);
    }
    Ok(())
}

/// A reader that is interrupted, gives two bytes at a time, and ends or fails.
#[derive(Drop)]
struct Stutter {
    reads: u8,
    end: Option<ErrorKind>,
}

impl Read for Stutter {
    fn read(&mut self, buf: &mut [u8]) -> io::Result<usize> {
        self.reads = self.reads.saturating_add(1);
        match self.reads {
            1 | 3 => Err(io::Error::from(ErrorKind::Interrupted)),
            2 | 4 if buf.len() >= 2 => {
                buf[0] = b'x';
                buf[1] = b'y';
                Ok(2)
            }
            _ => match self.end {
                None => Ok(0),
                Some(kind) => Err(io::Error::from(kind)),
            },
        }
    }
}

#[test]
fn a_read_is_retried_and_its_failure_is_told(rt: HostRuntime) -> Result<(), Fail> {
    let alloc = rt.alloc();
    for (end, limit, want) in [
        (None, 4, Ok("xyxy")),
        (None, 3, Err(ShelfFault::Long)),
        (Some(ErrorKind::Other), 9, Err(ShelfFault::Failed)),
        (Some(ErrorKind::OutOfMemory), 9, Err(ShelfFault::Memory)),
    ] {
        let mut bytes = Vec::new(alloc);
        let got = read_to_limit(Stutter { reads: 0, end }, limit, &mut bytes);
        assert_eq!(rt; got, want.map(|_| ()));
        if let Ok(text) = want {
            assert_eq!(rt; bytes.as_slice(), text.as_bytes());
        }
    }
    Ok(())
}

#[test]
fn a_disk_shelf_reads_real_files(rt: HostRuntime) -> Result<(), Fail> {
    let alloc = rt.alloc();
    let path = format!(in alloc; "/tmp/cat_io-{}", process::id(rt.process()))?;
    let content = vec![in alloc; 7u8; 300_000]?;
    fs::write(&rt, path.as_str(), content.as_slice())?;
    let mut shelf = DiskShelf::new(&rt, alloc);
    let whole = read_all(alloc, &mut shelf, path.as_str(), 300_000);
    let cut = read_all(alloc, &mut shelf, path.as_str(), 299_999);
    fs::remove_file(&rt, path.as_str())?;
    assert!(rt; whole == Ok(content));
    assert!(rt; cut == Err(ShelfFault::Long));
    for (name, want) in [
        (path.as_str(), ShelfFault::Missing),
        ("/", ShelfFault::Failed),
        ("/dev/null/x", ShelfFault::Failed),
        ("/dev/zero", ShelfFault::Long),
    ] {
        assert!(rt;
            read_all(alloc, &mut shelf, name, 100_000) == Err(want),
            "{name}"
        );
    }
    Ok(())
}

/// An output of limited room.
#[derive(Drop)]
struct Narrow {
    room: Cell<usize>,
}

impl Print for Narrow {
    fn print<D: Display + Drop>(&self, _value: D) -> io::Result<()> {
        Ok(())
    }

    fn println<D: Display + Drop>(&self, _value: D) -> io::Result<()> {
        Ok(())
    }

    fn write_all(&self, bytes: &[u8]) -> io::Result<()> {
        let room = self.room.get();
        self.room.set(room.saturating_sub(bytes.len()));
        if bytes.len() > room {
            return Err(io::Error::from(ErrorKind::WriteZero));
        }
        Ok(())
    }
}

#[test]
fn standard_output_fails_where_it_did_not_take_all(rt: HostRuntime) -> Result<(), Fail> {
    let narrow = Narrow { room: Cell::new(5) };
    let mut sink = StdSink::new(&narrow);
    for (piece, want) in [("abc", Ok(())), ("def", Err(SinkFault)), ("", Ok(()))] {
        assert_eq!(rt; put_into(&mut sink, piece.as_bytes()), want, "{piece}");
    }
    Ok(())
}
