// Why the exceptions of a scope make no forest.
ghost use Rattle.std.specs.Prelude.{◌≡◌};

use cat_pos::Pos;
use std::alloc::AllocError;

/// Why a scope has no forest, and at which word. Kinds are named in this order, each over the whole scope.
#[derive(Clone, Copy, Debug, PartialEq, Eq)]
pub enum ExceptRefusal {
    /// The label after `exception` is none of the target's.
    LabelUnknown(Pos),
    /// The definition with this label has another exception part than the first one with the label.
    LabelSplit(Pos),
    /// The bare `exception` is one of a target that has no root, or several.
    ExceptionAmbiguous(Pos),
    /// The group excepts itself, at once or through others.
    ExceptionCycle(Pos),
    /// This `exception` is the last one in source order of a chain of 257 groups.
    TooMany(Pos),
    Memory,
}

impl From<AllocError> for ExceptRefusal {
    ghost use Rattle.cat_except.specs.declared.refusal.ExceptRefusal.TheVariants.{Memory};

    ghost from_gives = { λ _ refusal. refusal ≡ Memory };

    fn from(_error: AllocError) -> ExceptRefusal {
        ExceptRefusal::Memory
    }
}
