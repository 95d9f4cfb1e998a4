// The names of the source files, by number.
ghost use Rattle.std.specs.Prelude.{◌≡◌, [], ◌∷◌, ◌++◌, ◌<◌, ◌+◌, length, slice_get, Some, IfOk, OnOk, OnErr};
ghost use Rattle.std.specs.Prelude.{string_bytes};
ghost use Rattle.cat_pos.specs.Position.{pos_file, shown};

use crate::{ENTRIES_BOUND, List, Pos, Text};
use std::alloc::{AllocError, Global};
use std::marker::Model;

/// The names of source files, numbered from 0 in the order in which they were added.
#[derive(Debug, Drop)]
pub struct Files {
    names: List<Text>,
    alloc: Global,
}

impl Model for Files {
    ghost use Rattle.std.specs.Prelude.{ℕ, List};

    ghost Value = { List (List ℕ) };

    ghost view = { λ files. files.names };
}

impl Files {
    pub fn new(alloc: Global) -> Files
        ensures { result ≡ [] }
    {
        Files {
            names: List::new(alloc),
            alloc,
        }
    }

    pub fn len(&self) -> usize
        ensures { result ≡ length self.now }
    {
        self.names.len()
    }

    /// Puts a name at the end, and gives its number.
    pub fn add(&mut self, name: &str) -> Result<u32, AllocError>
        requires { length self.old + 1 < ENTRIES_BOUND }
        ensures number { IfOk result (λ number. number ≡ length self.old) }
        ensures ok { OnOk result (self.new ≡ self.old ++ name.now ∷ []) }
        ensures err { OnErr result (self.new ≡ self.old) }
    {
        let number = self.names.len() as u32;
        let name = Text::from_str(self.alloc, name)?;
        self.names.push(name)?;
        Ok(number)
    }

    pub fn name(&self, file: u32) -> &str
        requires { file < length self.now }
        ensures { Some result.now ≡ slice_get self.now file }
    {
        self.names.at(file as usize).as_str()
    }
}

/// The text `name:line:column` of a position.
pub fn show_pos(alloc: Global, files: &Files, pos: Pos) -> Result<String, AllocError>
    requires { pos_file pos < length files.now }
    ensures { IfOk result (λ text. shown files.now pos ≡ Some (string_bytes text)) }
{
    let name = files.name(pos.file());
    let line = pos.line;
    let column = pos.column();
    format!(in alloc; "{name}:{line}:{column}")
}
