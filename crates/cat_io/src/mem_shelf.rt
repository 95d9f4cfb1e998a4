// A shelf in memory, of which the listed reads fail.
ghost use Rattle.std.specs.Prelude.{◌≡◌, ◌≢◌, [], Some, Err, OnOk, OnErr, if◌then◌else◌};
ghost use Rattle.cat_io.specs.Stored.{content_of, answer_of, after_read};
ghost use Rattle.cat_io.specs.Numbered.{fails_next, after_call};
ghost use Rattle.cat_io.specs.MemShelf.{shelved_of, reads_of};

use crate::calls::Calls;
use crate::names::list;
use crate::{PureShelf, Shelf, ShelfFault};
use std::alloc::Global;

/// Files in memory, the first of a name counting. Read number k, from 1, fails where k is listed.
#[derive(Drop)]
pub struct MemShelf {
    files: PureShelf,
    reads: Calls,
    faults: Vec<String>,
}

impl MemShelf {
    pub fn new(alloc: Global, files: Vec<(String, Vec<u8>)>, failing: Vec<u64>) -> MemShelf
        ensures state { shelved_of result ≡
            record { content = content_of files.items; misses = []; faults = []; longs = [] } }
        ensures reads { reads_of result ≡ record { made = 0; failing = failing.items } }
    {
        MemShelf {
            files: PureShelf::new(alloc, files),
            reads: Calls::new(failing),
            faults: Vec::new(alloc),
        }
    }
}

impl Shelf for MemShelf {
    ghost state = { shelved_of };

    fn read(&mut self, name: &str, limit: usize, into: &mut Vec<u8>) -> Result<(), ShelfFault>
        requires { into.old.items ≡ [] }
        ensures answer { result ≢ Err ShelfFault.Memory → result ≡
            (if fails_next (reads_of self.old) then Err ShelfFault.Failed
            else answer_of ((shelved_of self.old).content name.now) limit) }
        ensures counted { reads_of self.new ≡ after_call (reads_of self.old) }
        ensures state { shelved_of self.new ≡
            after_read (shelved_of self.old) name.now result }
        ensures ok { OnOk result ((shelved_of self.old).content name.now ≡ Some into.new.items) }
        ensures refused { OnErr result (into.new.items ≡ []) }
    {
        if self.reads.fails_next() {
            list(self.files.alloc, &mut self.faults, name)?;
            return Err(ShelfFault::Failed);
        }
        self.files.read(name, limit, into)
    }
}
