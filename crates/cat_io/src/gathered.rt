// Bytes that wait for a sink, so that it is asked once for many pieces.
ghost use Rattle.std.specs.Prelude.{◌≡◌, ◌⊎◌, ◌-◌, ◌≤◌, [], IsOk, OnErr, OnOk, length};
ghost use Rattle.cat_io.specs.Gathered.{Adds, most_gathered};
ghost use Rattle.cat_io.specs.Sink.{FailedAt, Puts, Took};

use crate::{Sink, SinkFault};
use std::alloc::Global;
use std::marker::Model;

/// The most bytes that are gathered: 64 KiB.
const ROOM: usize = 65_536;

/// Pieces of bytes that are gathered up to 64 KiB, and then put at once. Contracts see the bytes that aren't put yet.
#[derive(Drop)]
pub struct Gathered {
    bytes: Vec<u8>,
}

impl Model for Gathered {
    ghost use Rattle.std.specs.Prelude.{ℕ, List};

    ghost Value = { List ℕ };

    ghost view = { λ it. it.bytes.items };
}

impl Gathered {
    /// Takes no memory.
    pub fn new(alloc: Global) -> Gathered
        ensures { result ≡ [] }
    {
        Gathered {
            bytes: Vec::new(alloc),
        }
    }

    /// Puts all that is gathered as one piece. Where nothing is, the sink isn't asked.
    pub fn put_all<K: Sink>(&mut self, sink: &mut K) -> Result<(), SinkFault>
        ensures puts { Puts self.old (K.state sink.old) (K.state sink.new) result }
        ensures nothing { self.old ≡ [] → IsOk result × (K.state sink.new ≡ K.state sink.old) }
        ensures empty { self.new ≡ [] }
    {
        if self.bytes.is_empty() {
            return Ok(());
        }
        let put = sink.put(&self.bytes);
        self.bytes.clear();
        put
    }

    /// Adds a piece, behind a put of the others where all together are more than 64 KiB.
    /// One that is longer by itself, or for which there is no memory, is put at once.
    pub fn add<K: Sink>(&mut self, piece: &[u8], sink: &mut K) -> Result<(), SinkFault>
        ensures { Adds piece.now self.old self.new (K.state sink.old) (K.state sink.new) result }
    {
        self.make_room(piece.len(), sink)?;
        if piece.len() <= ROOM && self.bytes.extend_from_slice(piece).is_ok() {
            return Ok(());
        }
        self.put_all(sink)?;
        sink.put(piece)
    }

    // Puts what is gathered where it leaves no room for so many bytes.
    fn make_room<K: Sink>(&mut self, coming: usize, sink: &mut K) -> Result<(), SinkFault>
        ensures room { OnOk result (length self.new ≤ most_gathered - coming) }
        ensures ok { OnOk result ((self.new ≡ self.old) × (K.state sink.new ≡ K.state sink.old)
            ⊎ ((self.new ≡ []) × Took (K.state sink.old) (K.state sink.new) self.old)) }
        ensures err { OnErr result ((self.new ≡ []) × FailedAt (K.state sink.old) (K.state sink.new) self.old) }
    {
        if self.bytes.len() > ROOM.saturating_sub(coming) {
            self.put_all(sink)?;
        }
        Ok(())
    }
}
