// What stands against a tree.
ghost use Rattle.std.specs.Prelude.{◌≡◌};

use cat_pos::Pos;
use std::alloc::AllocError;

/// A fault of a source, with its position.
#[derive(Clone, Copy, PartialEq, Eq, Debug)]
pub enum Fault {
    /// The later of two equal names.
    NameTwice(Pos),
    /// A name that names nothing.
    NameUnknown(Pos),
    /// An expression without a type, or not of the expected one: at its operator, else at its first token.
    TypeMismatch(Pos),
    /// The word `match`, where a case is missing or twice, or where `anything` isn't last.
    MatchCases(Pos),
    /// The name of an item that depends on itself.
    VariableCycle(Pos),
    /// What calls a scope that leads back to the caller.
    ScopeCycle(Pos),
    /// The name of a structure or an enumeration that is a part of itself.
    TypeCycle(Pos),
    /// What stands where it may not.
    Misplaced(Pos),
    /// The first thing past a limit.
    TooMany(Pos),
}

/// Why nothing is answered of a tree.
#[derive(Clone, Copy, PartialEq, Eq, Debug)]
pub enum Refusal {
    Memory,
    Refused(Fault),
}

impl From<AllocError> for Refusal {
    ghost use Rattle.cat_names.specs.declared.fault.Refusal.TheVariants.{Memory};

    ghost from_gives = { λ _ refusal. refusal ≡ Memory };

    fn from(_error: AllocError) -> Refusal {
        Refusal::Memory
    }
}
