//! Why bytes are no input.
ghost use Rattle.std.specs.Prelude.{◌≡◌, [], ◌∷◌, IfOk};

use crate::{Path, Step};
use cat_pos::Text;
use std::alloc::{AllocError, Global};

/// Why a part of JSON is no value of the type that is due there.
#[derive(Clone, Copy, PartialEq, Eq, Debug)]
pub enum Reason {
    /// It is missing.
    Missing,
    /// Its key is not known.
    Extra,
    /// It has another form than the type's.
    WrongForm,
    /// Its form is right, and what it stands for is out of range.
    OutOfRange,
}

/// The part that is refused, and why.
#[derive(Debug, Drop)]
pub struct PartRefusal {
    pub reason: Reason,
    pub path: Path,
}

impl PartRefusal {
    /// A refusal of the whole.
    pub fn new(alloc: Global, reason: Reason) -> PartRefusal
        ensures { result ≡ record { reason = reason; path = [] } }
    {
        PartRefusal {
            reason,
            path: Path::new(alloc),
        }
    }

    /// The refusal, seen from what the part is a part of.
    pub fn under(self, step: Step) -> Result<PartRefusal, AllocError>
        ensures { IfOk result (λ refusal. refusal ≡ record { reason = self.reason; path = step ∷ self.path }) }
    {
        let PartRefusal { reason, path } = self;
        Ok(PartRefusal {
            reason,
            path: path.under(step)?,
        })
    }
}

/// Why bytes are no input: I1 to I5, each but the first with the path of the part, and want of memory.
#[derive(Debug, Drop)]
pub enum InputRefusal {
    /// The bytes are no JSON that `serde_json` reads.
    NotJson,
    Missing(Text),
    Extra(Text),
    WrongForm(Text),
    OutOfRange(Text),
    Memory,
}

impl From<AllocError> for InputRefusal {
    ghost use Rattle.cat_json.specs.declared.refusal.InputRefusal.TheVariants.{Memory};

    ghost from_gives = { λ _ refusal. refusal ≡ Memory };

    fn from(_error: AllocError) -> InputRefusal {
        InputRefusal::Memory
    }
}
