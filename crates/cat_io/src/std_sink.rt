// Standard output. Nothing is told of what it takes.
ghost use Rattle.std.specs.Prelude.{◌≡◌, ◌≤◌, None, IsTrue};
ghost use Rattle.std.specs.Io.KnownBytes.{Appends};

use crate::{Sink, SinkFault};
use std::io::{self, Write};

/// Standard output, written at once: nothing stays in a buffer.
#[derive(Drop)]
pub struct StdSink<'a, R> {
    rt: &'a R,
    faults: u64,
}

impl<'a, R: Print> StdSink<'a, R> {
    pub fn new(rt: &'a R) -> StdSink<'a, R>
        ensures { ⟦<StdSink<'a, R> as Sink>⟧.state result ≡ record { taken = None; room = None; faults = 0 } }
    {
        StdSink { rt, faults: 0 }
    }
}

impl<'a, R: Print> Sink for StdSink<'a, R> {
    ghost state = { λ s. record { taken = None; room = None; faults = s.faults } };

    fn put(&mut self, piece: &[u8]) -> Result<(), SinkFault> {
        if is_written(&mut io::writer(self.rt), piece) {
            return Ok(());
        }
        self.faults = self.faults.saturating_add(1);
        Err(SinkFault)
    }
}

// Whether all was written.
fn is_written<W: Write>(writer: &mut W, piece: &[u8]) -> bool
    ensures { IsTrue result → Appends (W.contents writer.old) (W.contents writer.new) piece.now }
{
    writer.write_all(piece).is_ok()
}
