// A sink in memory that doesn't tell its room, of which the listed puts fail.
ghost use Rattle.std.specs.Prelude.{◌≡◌, ◌↔◌, ◌≤◌, [], Some, false, length, IfOk, IfSome, IsOk};
ghost use Rattle.cat_io.specs.Numbered.{fails_next, after_call};
ghost use Rattle.cat_io.specs.Stored.{after_put};
ghost use Rattle.cat_io.specs.MemSink.{kept_of, sunk_of, puts_of};

use crate::calls::Calls;
use crate::{PureSink, Sink, SinkFault};
use std::alloc::{AllocError, Global};

/// Keeps what it took, within a room. Put number k, from 1, fails where k is listed.
#[derive(Drop)]
pub struct MemSink {
    sink: PureSink,
    puts: Calls,
}

impl MemSink {
    pub fn new(alloc: Global, room: usize, failing: Vec<u64>) -> Result<MemSink, AllocError>
        ensures kept { IfOk result (λ sink. kept_of sink ≡ record { taken = Some []; room = Some room; faults = 0 }) }
        ensures puts { IfOk result (λ sink. puts_of sink ≡ record { made = 0; failing = failing.items }) }
    {
        Ok(MemSink {
            sink: PureSink::new(alloc, room)?,
            puts: Calls::new(failing),
        })
    }

    pub fn taken(&self) -> &[u8]
        ensures { (sunk_of self.now).taken ≡ Some result.now }
    {
        self.sink.taken()
    }
}

impl Sink for MemSink {
    ghost state = { sunk_of };

    fn put(&mut self, piece: &[u8]) -> Result<(), SinkFault>
        ensures answer { IfSome (kept_of self.old).room (λ room.
            IsOk result ↔ ((fails_next (puts_of self.old) ≡ false) × (length piece.now ≤ room))) }
        ensures counted { puts_of self.new ≡ after_call (puts_of self.old) }
        ensures kept { kept_of self.new ≡ after_put (kept_of self.old) piece.now result }
        ensures no_fewer { (sunk_of self.old).faults ≤ (sunk_of self.new).faults }
    {
        if self.puts.fails_next() {
            return Err(self.sink.fail());
        }
        self.sink.put(piece)
    }
}
