// Real files and standard input. Nothing is told of what they contain.
ghost use Rattle.std.specs.Prelude.{◌≡◌, ◌≢◌, ◌<◌, ◌≤◌, [], None, Err, length, vec_len, IfSome, OnOk, OnErr, IsErrOf};
ghost use Rattle.cat_io.specs.Stored.{texts_of, after_read};

use crate::names::list;
use crate::{Shelf, ShelfFault};
use std::alloc::Global;
use std::fs;
use std::io::{ErrorKind, Read};
use std::rt::Files;

/// Files of the system by their paths, and standard input by the name `-`.
#[derive(Drop)]
pub struct DiskShelf<'a, R> {
    rt: &'a R,
    alloc: Global,
    misses: Vec<String>,
    faults: Vec<String>,
    longs: Vec<String>,
}

impl<'a, R: Files + Input> DiskShelf<'a, R> {
    pub fn new(rt: &'a R, alloc: Global) -> DiskShelf<'a, R>
        ensures { ⟦<DiskShelf<'a, R> as Shelf>⟧.state result ≡
            record { content = λ _. None; misses = []; faults = []; longs = [] } }
    {
        DiskShelf {
            rt,
            alloc,
            misses: Vec::new(alloc),
            faults: Vec::new(alloc),
            longs: Vec::new(alloc),
        }
    }
}

impl<'a, R: Files + Input> Shelf for DiskShelf<'a, R> {
    ghost state = { λ s. record {
      content = λ _. None;
      misses = texts_of s.misses.items;
      faults = texts_of s.faults.items;
      longs = texts_of s.longs.items;
    } };

    fn read(&mut self, name: &str, limit: usize, into: &mut Vec<u8>) -> Result<(), ShelfFault>
        requires { into.old.items ≡ [] }
        ensures state { ⟦<DiskShelf<'a, R> as Shelf>⟧.state self.new
            ≡ after_read (⟦<DiskShelf<'a, R> as Shelf>⟧.state self.old) name.now result }
        ensures short { OnOk result (vec_len into.new ≤ limit) }
        ensures refused { OnErr result (into.new.items ≡ []) }
    {
        let Err(fault) = read_named(self.rt, name, limit, into) else {
            return Ok(());
        };
        into.clear();
        match fault {
            ShelfFault::Missing => list(self.alloc, &mut self.misses, name)?,
            ShelfFault::Failed => list(self.alloc, &mut self.faults, name)?,
            ShelfFault::Long => list(self.alloc, &mut self.longs, name)?,
            ShelfFault::Memory => {}
        }
        Err(fault)
    }
}

// A path that can't be opened because nothing is there is a miss, and every other failure a fault.
fn read_named<R: Files + Input>(
    rt: &R,
    name: &str,
    limit: usize,
    into: &mut Vec<u8>,
) -> Result<(), ShelfFault>
    requires { into.old.items ≡ [] }
    ensures { OnOk result (vec_len into.new ≤ limit) }
{
    if name == "-" {
        return read_to_limit(rt.reader(), limit, into);
    }
    match fs::open(rt, name) {
        Ok(file) => read_to_limit(file, limit, into),
        Err(e) => match e.kind() {
            ErrorKind::NotFound => Err(ShelfFault::Missing),
            ErrorKind::OutOfMemory => Err(ShelfFault::Memory),
            _ => Err(ShelfFault::Failed),
        },
    }
}

// All that a reader gives, straight into the buffer: std doubles its reads up to 128 KiB, and
// retries one that was interrupted. One byte past the limit is asked for, to tell a long file.
pub(crate) fn read_to_limit<R: Read + Drop>(
    reader: R,
    limit: usize,
    into: &mut Vec<u8>,
) -> Result<(), ShelfFault>
    requires { into.old.items ≡ [] }
    ensures short { OnOk result (vec_len into.new ≤ limit) }
    ensures bytes { OnOk result (IfSome (R.remaining reader) (λ bytes. into.new.items ≡ bytes)) }
    ensures long { IsErrOf result ShelfFault.Long →
        IfSome (R.remaining reader) (λ bytes. limit < length bytes) }
    ensures no_miss { result ≢ Err ShelfFault.Missing }
{
    let mut reader = reader.take((limit as u64).saturating_add(1));
    match reader.read_to_end(into) {
        Ok(_) if into.len() > limit => Err(ShelfFault::Long),
        Ok(_) => Ok(()),
        Err(e) if e.kind() == ErrorKind::OutOfMemory => Err(ShelfFault::Memory),
        Err(_) => Err(ShelfFault::Failed),
    }
}
