// The trait of sinks.
ghost use Rattle.cat_io.specs.Sink.{Sunk, Puts};

/// A put that failed, and was counted.
#[derive(Clone, Copy, Debug, PartialEq, Eq)]
pub struct SinkFault;

/// Where a program's output goes.
pub trait Sink {
    /// What the sink took and how often it failed.
    ghost state: { Self → Sunk };

    /// Appends a piece of bytes, or fails and is counted. It takes no memory.
    fn put(&mut self, piece: &[u8]) -> Result<(), SinkFault>
        ensures { Puts piece.now (state self.old) (state self.new) result };
}
