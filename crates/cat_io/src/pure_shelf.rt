// A shelf in memory, of which no read fails.
ghost use Rattle.std.specs.Prelude.{◌≡◌, ◌≢◌, [], Some, option_map, OnOk, OnErr, Err};
ghost use Rattle.cat_io.specs.PureShelf.{shelved_of};
ghost use Rattle.cat_io.specs.Stored.{content_of, answer_of, after_read};

use crate::names::list;
use crate::{Shelf, ShelfFault};
use std::alloc::Global;

/// Files in memory, the first of a name counting.
#[derive(Drop)]
pub struct PureShelf {
    pub(crate) alloc: Global,
    files: Vec<(String, Vec<u8>)>,
    misses: Vec<String>,
    longs: Vec<String>,
}

impl PureShelf {
    pub fn new(alloc: Global, files: Vec<(String, Vec<u8>)>) -> PureShelf
        ensures { shelved_of result ≡
            record { content = content_of files.items; misses = []; faults = []; longs = [] } }
    {
        PureShelf {
            alloc,
            files,
            misses: Vec::new(alloc),
            longs: Vec::new(alloc),
        }
    }
}

impl Shelf for PureShelf {
    ghost state = { shelved_of };

    fn read(&mut self, name: &str, limit: usize, into: &mut Vec<u8>) -> Result<(), ShelfFault>
        requires { into.old.items ≡ [] }
        ensures answer { result ≢ Err ShelfFault.Memory →
            result ≡ answer_of ((shelved_of self.old).content name.now) limit }
        ensures state { shelved_of self.new ≡
            after_read (shelved_of self.old) name.now result }
        ensures ok { OnOk result ((shelved_of self.old).content name.now ≡ Some into.new.items) }
        ensures refused { OnErr result (into.new.items ≡ []) }
    {
        match find(&self.files, name) {
            None => {
                list(self.alloc, &mut self.misses, name)?;
                Err(ShelfFault::Missing)
            }
            Some(bytes) if bytes.len() > limit => {
                list(self.alloc, &mut self.longs, name)?;
                Err(ShelfFault::Long)
            }
            Some(bytes) => Ok(into.extend_from_slice(bytes)?),
        }
    }
}

// The bytes of the first file of that name.
fn find<'a>(files: &'a [(String, Vec<u8>)], name: &str) -> Option<&'a [u8]>
    ensures { option_map (λ bytes. bytes.now) result ≡ content_of files.now name.now }
{
    for file in files {
        if file.0.as_str() == name {
            return Some(&file.1);
        }
    }
    None
}
