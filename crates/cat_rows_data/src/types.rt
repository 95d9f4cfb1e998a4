//! Types as a word spells them: `integer`, `[integer]` for a list, and the names of what is declared.

use cat_pos::Boxed;
use cat_rows::Problem;
use cat_value::Ty;
use std::alloc::Global;

pub fn type_of(alloc: Global, word: &str) -> Result<Ty, Problem> {
    let base = word.trim_start_matches('[').trim_end_matches(']');
    let mut ty = base_of(base).ok_or(Problem::Unreadable)?;
    for byte in word.bytes() {
        if byte == b'[' {
            ty = Ty::List(Boxed::new(alloc, ty)?);
        }
    }
    Ok(ty)
}

fn base_of(word: &str) -> Option<Ty> {
    match word {
        "boolean" => Some(Ty::Boolean),
        "integer" => Some(Ty::Integer),
        "decimal" => Some(Ty::Decimal),
        "money" => Some(Ty::Money),
        "date" => Some(Ty::Date),
        "duration" => Some(Ty::Duration),
        "Pair" => Some(Ty::Structure(0)),
        "Home" => Some(Ty::Structure(1)),
        "Individual" => Some(Ty::Structure(2)),
        "Person" => Some(Ty::Structure(3)),
        "Choice" => Some(Ty::Enumeration(0)),
        "Letter" => Some(Ty::Enumeration(1)),
        "TaxCredit" => Some(Ty::Enumeration(2)),
        _ => None,
    }
}
