// Texts of positions and types.
ghost use Rattle.std.specs.Prelude.{◌≡◌, IfOk, string_bytes};
ghost use Rattle.cat_listing.specs.Texts as words;

use cat_pos::Pos;
use cat_value::{Decls, Ty};
use std::alloc::{AllocError, Global};

/// A position, by the number of its file.
pub fn place_text(alloc: Global, pos: Pos) -> Result<String, AllocError>
    ensures { IfOk result (λ text. string_bytes text ≡ words.place_text pos) }
{
    let file = pos.file();
    let line = pos.line;
    let column = pos.column();
    format!(in alloc; "{file}:{line}:{column}")
}

/// A type as sources write it.
#[tactic(auto, using(crate::proofs::TypeTexts::types))]
pub fn type_text(alloc: Global, ty: &Ty, decls: &Decls) -> Result<String, AllocError>
    ensures { IfOk result (λ text. string_bytes text ≡ words.type_text decls.now ty.now) }
{
    match ty {
        Ty::Boolean => String::from_str(alloc, "boolean"),
        Ty::Integer => String::from_str(alloc, "integer"),
        Ty::Decimal => String::from_str(alloc, "decimal"),
        Ty::Money => String::from_str(alloc, "money"),
        Ty::Date => String::from_str(alloc, "date"),
        Ty::Duration => String::from_str(alloc, "duration"),
        Ty::List(element) => {
            let element = type_text(alloc, element.get(), decls)?;
            format!(in alloc; "list of {element}")
        }
        Ty::Structure(structure) => match decls.structures.get(*structure as usize) {
            Some(structure) => String::from_str(alloc, structure.name.as_str()),
            None => Ok(String::new(alloc)),
        },
        Ty::Enumeration(enumeration) => match decls.enumerations.get(*enumeration as usize) {
            Some(enumeration) => String::from_str(alloc, enumeration.name.as_str()),
            None => Ok(String::new(alloc)),
        },
    }
}
