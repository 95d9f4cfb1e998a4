// The cases of all enumerations, as code names them.
ghost use Rattle.std.specs.Prelude.{◌≡◌, ◌++◌, OnOk, IfOk};
ghost use Rattle.cat_code.specs.Places as words;

use crate::growing::fitting;
use cat_code::{CasePlace, CasePlaces};
use cat_pos::List;
use cat_value::{Cases, Decls};
use std::alloc::{AllocError, Global};

fn push_cases(places: &mut CasePlaces, enumeration: u32, cases: &Cases) -> Result<(), AllocError>
    ensures { OnOk result (places.new ≡ places.old ++ words.places_in enumeration 0 cases.now) }
{
    for (case, _) in cases.as_slice().iter().enumerate() {
        let case = fitting(case)?;
        places.push(CasePlace { enumeration, case })?;
    }
    Ok(())
}

/// All cases, in the order of their declarations.
pub fn case_places(alloc: Global, decls: &Decls) -> Result<CasePlaces, AllocError>
    ensures { IfOk result (λ places. places ≡ words.case_places 0 decls.now.enumerations) }
{
    let mut places = List::new(alloc);
    for (number, enumeration) in decls.enumerations.as_slice().iter().enumerate() {
        push_cases(&mut places, fitting(number)?, &enumeration.cases)?;
    }
    Ok(places)
}
