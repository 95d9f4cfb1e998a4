// The declarations of a program, with what holds of them.
ghost use Rattle.std.specs.Prelude.{◌≡◌, IsTrue};
ghost use Rattle.cat_value.specs.Declarations.{are_sound};

use crate::{Enumerations, Scopes, Structures};

/// All that a program declares. Each number in it names an entry, each structure and enumeration has a part, none is a
/// part of itself, no type is higher than 64, and each list has fewer than 2^32 entries.
#[derive(Debug, Drop)]
pub struct Decls {
    pub structures: Structures,
    pub enumerations: Enumerations,
    pub scopes: Scopes,
    pub ghost sound: { IsTrue (are_sound structures enumerations scopes) },
}

impl Decls {
    pub fn from_parts(structures: Structures, enumerations: Enumerations, scopes: Scopes) -> Decls
        requires { IsTrue (are_sound structures enumerations scopes) }
        ensures structures { result.structures ≡ structures }
        ensures enumerations { result.enumerations ≡ enumerations }
        ensures scopes { result.scopes ≡ scopes }
    {
        Decls {
            structures,
            enumerations,
            scopes,
        }
    }
}
