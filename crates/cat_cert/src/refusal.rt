// Why a certificate is refused.
ghost use Rattle.std.specs.Prelude.{◌≡◌};

use std::alloc::AllocError;

/// Why a certificate is refused, with the number of the line from 1.
#[derive(Clone, Copy, PartialEq, Eq, Debug)]
pub enum CertRefusal {
    /// The line is none that may stand there.
    BadLine(usize),
    /// The line names another scope or target than is due.
    WrongName(usize),
    /// The leaf that is written there isn't covered.
    NotCovered(usize),
    /// The text ends before the certificate does.
    Short,
    /// The line follows the last one.
    Trailing(usize),
    /// With the leaf or citation of that line a tree passes the most leaves.
    TooWide(usize),
    Memory,
}

impl From<AllocError> for CertRefusal {
    ghost use Rattle.cat_cert.specs.declared.refusal.CertRefusal.TheVariants.{Memory};

    ghost from_gives = { λ _ refusal. refusal ≡ Memory };

    fn from(_error: AllocError) -> CertRefusal {
        CertRefusal::Memory
    }
}
