// Why an image isn't verified.
ghost use Rattle.std.specs.Prelude.{◌≡◌};
ghost use Rattle.cat_verify.specs.declared.refusal.VerifyRefusal.TheVariants.{Memory};
ghost use Rattle.cat_verify.specs.OfParts.{of_tables, of_shapes};

use cat_verify_shapes::ShapeRefusal;
use cat_verify_tables::TableRefusal;
use std::alloc::AllocError;
use thiserror::Error;

/// Why an image has no valid and tame code.
#[derive(Clone, Copy, Debug, Error)]
pub enum VerifyRefusal {
    /// The number of a line, from 1 on.
    #[error("a line of the tables names, spells or declares something wrong")]
    BadTable(usize),
    /// The number of an instruction, or for an entry that lies behind them how many there are.
    #[error("an instruction names what isn't there, or breaks a rule of listings")]
    BadNumber(usize),
    #[error("an instruction may be run without an end")]
    Endless(usize),
    #[error("an instruction may lack what it works on")]
    BadShape(usize),
    #[error("out of memory")]
    Memory,
}

impl From<AllocError> for VerifyRefusal {
    ghost from_gives = { λ _ e. e ≡ Memory };

    fn from(_: AllocError) -> Self {
        VerifyRefusal::Memory
    }
}

impl From<TableRefusal> for VerifyRefusal {
    ghost from_gives = { λ why e. e ≡ of_tables why };

    fn from(why: TableRefusal) -> Self {
        match why {
            TableRefusal::BadTable(line) => VerifyRefusal::BadTable(line),
            TableRefusal::Memory => VerifyRefusal::Memory,
        }
    }
}

impl From<ShapeRefusal> for VerifyRefusal {
    ghost from_gives = { λ why e. e ≡ of_shapes why };

    fn from(why: ShapeRefusal) -> Self {
        match why {
            ShapeRefusal::BadShape(place) => VerifyRefusal::BadShape(place),
            ShapeRefusal::Memory => VerifyRefusal::Memory,
        }
    }
}
