// Why tables aren't told.
ghost use Rattle.std.specs.Prelude.{◌≡◌};
ghost use Rattle.cat_verify_tables.specs.declared.refusal.TableRefusal.TheVariants.{Memory};

use std::alloc::AllocError;
use thiserror::Error;

/// Why the lines of an image are no tables.
#[derive(Clone, Copy, Debug, Error)]
pub enum TableRefusal {
    /// The number of a line, from 1 on.
    #[error("a line of the tables names, spells or declares something wrong")]
    BadTable(usize),
    #[error("out of memory")]
    Memory,
}

impl From<AllocError> for TableRefusal {
    ghost from_gives = { λ _ e. e ≡ Memory };

    fn from(_: AllocError) -> Self {
        TableRefusal::Memory
    }
}
