// Names and types as they are written.
ghost use Rattle.std.specs.Prelude.{◌≡◌, IfOk};

use cat_pos::{Boxed, List, Pos, Text};
use std::alloc::AllocError;

/// A word that names something, with its position.
#[derive(Debug, Drop)]
pub struct Name {
    pub text: Text,
    pub pos: Pos,
}

impl Name {
    pub fn copy(&self) -> Result<Name, AllocError>
        ensures { IfOk result (λ copied. copied ≡ self.now) }
    {
        let text = self.text.copy()?;
        Ok(Name {
            text,
            pos: self.pos,
        })
    }
}

pub type Names = List<Name>;

/// How a case is named: by its own word, or behind its enumeration's.
#[derive(Debug, Drop)]
pub enum CaseName {
    Bare(Name),
    /// The enumeration, then the case.
    Qualified(Boxed<Name>, Boxed<Name>),
}

/// What a type is once each `list of` before it is taken off.
#[derive(Debug, Drop)]
pub enum Base {
    Boolean,
    Integer,
    Decimal,
    Money,
    Date,
    Duration,
    /// A structure or an enumeration.
    Named(Text),
}

/// A type: a base behind a number of `list of`, so that no type is a deep value.
#[derive(Debug, Drop)]
pub struct Type {
    /// How many `list of` stand before the base.
    pub lists: usize,
    pub base: Base,
    /// The position of the base's word.
    pub pos: Pos,
}
