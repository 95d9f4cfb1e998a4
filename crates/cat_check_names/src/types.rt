// Names of types.
ghost use Rattle.std.specs.Prelude.{◌≡◌};

use crate::NameTable;
use cat_pos::Text;
use cat_value::Ty;

/// The names of structures and of enumerations, each numbered by itself.
#[derive(Drop)]
pub struct TypeTable {
    pub structures: NameTable,
    pub enumerations: NameTable,
}

impl TypeTable {
    ghost use Rattle.cat_check_names.specs.Tables.{type_in};

    /// The type of that name: a structure, or else an enumeration.
    pub fn named(&self, name: &Text) -> Option<Ty>
        ensures { result ≡ type_in self.now name.now }
    {
        if let Some(structure) = self.structures.number(name) {
            return Some(Ty::Structure(structure));
        }
        match self.enumerations.number(name) {
            Some(enumeration) => Some(Ty::Enumeration(enumeration)),
            None => None,
        }
    }
}
