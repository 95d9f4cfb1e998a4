//! The names that were met, so that equal ones share their bytes.
ghost use Rattle.std.specs.Prelude.{◌≡◌, IfOk};

use cat_pos::Text;
use std::alloc::{AllocError, Global};
use std::collections::HashMap;
use std::marker::Model;

/// The names that were met, where they stand in the source, with the text of each.
#[derive(Drop)]
pub(crate) struct Names<'a> {
    met: HashMap<&'a str, Text>,
}

impl<'a> Model for Names<'a> {
    ghost use Rattle.cat_lex.specs.inside.Tables.{TellsNames};

    ghost Value = { Unit {0} };

    ghost view = { λ names. record {} };

    ghost invariant = { λ names. TellsNames names.met };
}

impl<'a> Names<'a> {
    pub(crate) fn new(alloc: Global) -> Names<'a> {
        Names {
            met: HashMap::new(alloc),
        }
    }

    /// The text of a name, which shares its bytes with an equal one that was met before.
    pub(crate) fn text(&mut self, alloc: Global, name: &'a str) -> Result<Text, AllocError>
        ensures { IfOk result (λ text. text ≡ name.now) }
    {
        if let Some(met) = self.met.get(name) {
            return met.copy();
        }
        let text = Text::from_str(alloc, name)?;
        self.met.insert(name, text.copy()?)?;
        Ok(text)
    }
}
