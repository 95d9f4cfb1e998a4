// The trait of shelves, why a read is refused, and a whole file.
ghost use Rattle.std.specs.Prelude.{◌≡◌, [], OnErr};
ghost use Rattle.cat_io.specs.Shelf.{Shelved, Reads, with_bytes};
ghost use Rattle.cat_io.specs.declared.shelf.ShelfFault.TheVariants.{Memory};

use std::alloc::{AllocError, AllocFailed, Global};

/// Why a read was refused.
#[derive(Clone, Copy, Debug, PartialEq, Eq)]
pub enum ShelfFault {
    /// There is no such file.
    Missing,
    /// The file is there, and can't be read.
    Failed,
    /// The file has more bytes than the limit.
    Long,
    /// Want of memory, for the content or for listing the name.
    Memory,
}

impl From<AllocError> for ShelfFault {
    ghost from_gives = { λ _ e. e ≡ Memory };

    fn from(_: AllocError) -> Self {
        ShelfFault::Memory
    }
}

impl<T: Drop> From<AllocFailed<T>> for ShelfFault {
    ghost from_gives = { λ _ e. e ≡ Memory };

    fn from(_: AllocFailed<T>) -> Self {
        ShelfFault::Memory
    }
}

/// Where named files are read. The name `-` is standard input.
pub trait Shelf {
    /// What the shelf tells, and the names that it refused.
    ghost state: { Self → Shelved };

    /// Reads a file of at most `limit` bytes into an empty buffer.
    /// Listing a refused name takes memory, so such a read may answer `Memory` instead.
    fn read(&mut self, name: &str, limit: usize, into: &mut Vec<u8>) -> Result<(), ShelfFault>
        requires { into.old.items ≡ [] }
        ensures reads { Reads name.now limit (state self.old) (state self.new) (with_bytes result into.new) }
        ensures refused { OnErr result (into.new.items ≡ []) };
}

/// The bytes of a file of at most `limit` bytes.
pub fn read_all<S: Shelf>(
    alloc: Global,
    shelf: &mut S,
    name: &str,
    limit: usize,
) -> Result<Vec<u8>, ShelfFault>
    ensures { Reads name.now limit (S.state shelf.old) (S.state shelf.new) result }
{
    let mut bytes = Vec::new(alloc);
    shelf.read(name, limit, &mut bytes)?;
    Ok(bytes)
}
