// A sink in memory that tells its room, of which no put fails that fits.
ghost use Rattle.std.specs.Prelude.{◌≡◌, ◌↔◌, ◌+◌, ◌≤◌, [], Some, Err, length, vec_capacity, IfOk, IfSome, IsOk};
ghost use Rattle.cat_io.specs.Stored.{after_put};

use crate::{Sink, SinkFault};
use std::alloc::{AllocError, Global};

/// Keeps what it took, within a room that is taken from memory at once.
#[derive(Drop)]
pub struct PureSink {
    taken: Vec<u8>,
    spare: usize,
    faults: u64,
    ghost reserved: { length taken.items + spare ≤ vec_capacity taken },
}

impl PureSink {
    ghost use Rattle.cat_io.specs.PureSink.{sunk_of};

    pub fn new(alloc: Global, room: usize) -> Result<PureSink, AllocError>
        ensures { IfOk result (λ sink. sunk_of sink ≡
            record { taken = Some []; room = Some room; faults = 0 }) }
    {
        let taken = Vec::with_capacity(alloc, room)?;
        Ok(PureSink {
            taken,
            spare: room,
            faults: 0,
        })
    }

    /// The room that is left, in bytes.
    pub fn spare(&self) -> usize
        ensures { (sunk_of self.now).room ≡ Some result }
    {
        self.spare
    }

    pub fn taken(&self) -> &[u8]
        ensures { (sunk_of self.now).taken ≡ Some result.now }
    {
        &self.taken
    }

    /// Counts a fault.
    pub(crate) fn fail(&mut self) -> SinkFault
        ensures faults { sunk_of self.new ≡ after_put (sunk_of self.old) [] (Err result) }
        ensures no_fewer { (sunk_of self.old).faults ≤ (sunk_of self.new).faults }
    {
        self.faults = self.faults.saturating_add(1);
        SinkFault
    }
}

impl Sink for PureSink {
    ghost use Rattle.cat_io.specs.PureSink.{sunk_of};

    ghost state = { sunk_of };

    fn put(&mut self, piece: &[u8]) -> Result<(), SinkFault>
        ensures answer { IfSome (sunk_of self.old).room (λ room.
            IsOk result ↔ (length piece.now ≤ room)) }
        ensures state { sunk_of self.new ≡
            after_put (sunk_of self.old) piece.now result }
        ensures no_fewer { (sunk_of self.old).faults ≤ (sunk_of self.new).faults }
    {
        if piece.len() > self.spare {
            return Err(self.fail());
        }
        match self.taken.extend_from_slice(piece) {
            Ok(()) => {
                self.spare -= piece.len();
                Ok(())
            }
            Err(_) => unreachable!(),
        }
    }
}
