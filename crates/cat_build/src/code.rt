// What may be at fault in a source.
ghost use Rattle.std.specs.Prelude.{◌≡◌};
ghost use Rattle.cat_build.specs.Codes.{number_of, refusal_of};

use cat_except::ExceptRefusal;
use cat_names::Fault;
use cat_pos::Pos;
use std::alloc::AllocError;

/// What is at fault in a source. Each has a number, by which replies name it.
#[derive(Clone, Copy, PartialEq, Eq, Debug)]
pub enum FaultCode {
    /// No token begins there.
    NoToken,
    /// A literal passes its bound, or a date isn't one.
    LiteralRange,
    /// The token with which the tokens begin no program any more, or their end.
    Unexpected,
    /// A token with which the tokens begin no program any more whose expressions are at most 256 high.
    TooDeep,
    /// The later of two equal names.
    NameTwice,
    /// A name that names nothing.
    NameUnknown,
    /// An expression without a type, or not of the expected one.
    TypeMismatch,
    /// The word `match`, where a case is missing or twice, or where `anything` isn't last.
    MatchCases,
    /// The word after `exception`, where no definition of the target has the label.
    LabelUnknown,
    /// The label of a definition whose exception part differs from that of the first with its label.
    LabelSplit,
    /// A bare `exception` of a target that hasn't exactly one root.
    ExceptionAmbiguous,
    /// An `exception` of a group that excepts itself, at once or through others.
    ExceptionCycle,
    /// The name of an item that depends on itself.
    VariableCycle,
    /// What calls a scope that leads back to the caller.
    ScopeCycle,
    /// The name of a structure or an enumeration that is a part of itself.
    TypeCycle,
    /// What stands where it may not.
    Misplaced,
    /// The first thing past a limit.
    TooMany,
}

impl FaultCode {
    /// The number by which replies name it.
    pub fn number(self) -> u32
        ensures { result ≡ number_of self }
    {
        match self {
            FaultCode::NoToken => 4,
            FaultCode::LiteralRange => 5,
            FaultCode::Unexpected => 6,
            FaultCode::TooDeep => 7,
            FaultCode::NameTwice => 8,
            FaultCode::NameUnknown => 9,
            FaultCode::TypeMismatch => 10,
            FaultCode::MatchCases => 11,
            FaultCode::LabelUnknown => 12,
            FaultCode::LabelSplit => 13,
            FaultCode::ExceptionAmbiguous => 14,
            FaultCode::ExceptionCycle => 15,
            FaultCode::VariableCycle => 16,
            FaultCode::ScopeCycle => 17,
            FaultCode::TypeCycle => 18,
            FaultCode::Misplaced => 19,
            FaultCode::TooMany => 20,
        }
    }
}

/// Why a source is not built, and where.
#[derive(Clone, Copy, PartialEq, Eq, Debug)]
pub enum BuildRefusal {
    Refused(FaultCode, Pos),
    Memory,
}

impl From<AllocError> for BuildRefusal {
    ghost use Rattle.cat_build.specs.declared.code.BuildRefusal.TheVariants.{Memory};

    ghost from_gives = { λ _ refusal. refusal ≡ Memory };

    fn from(_error: AllocError) -> BuildRefusal {
        BuildRefusal::Memory
    }
}

/// The refusal that a fault against a tree is.
pub fn fault_refusal(fault: Fault) -> BuildRefusal
    ensures { result ≡ refusal_of fault }
{
    match fault {
        Fault::NameTwice(pos) => BuildRefusal::Refused(FaultCode::NameTwice, pos),
        Fault::NameUnknown(pos) => BuildRefusal::Refused(FaultCode::NameUnknown, pos),
        Fault::TypeMismatch(pos) => BuildRefusal::Refused(FaultCode::TypeMismatch, pos),
        Fault::MatchCases(pos) => BuildRefusal::Refused(FaultCode::MatchCases, pos),
        Fault::VariableCycle(pos) => BuildRefusal::Refused(FaultCode::VariableCycle, pos),
        Fault::ScopeCycle(pos) => BuildRefusal::Refused(FaultCode::ScopeCycle, pos),
        Fault::TypeCycle(pos) => BuildRefusal::Refused(FaultCode::TypeCycle, pos),
        Fault::Misplaced(pos) => BuildRefusal::Refused(FaultCode::Misplaced, pos),
        Fault::TooMany(pos) => BuildRefusal::Refused(FaultCode::TooMany, pos),
    }
}
