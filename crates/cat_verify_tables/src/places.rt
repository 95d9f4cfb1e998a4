// Functions and cases by their numbers.
ghost use Rattle.std.specs.Prelude.{◌≡◌, ◌++◌, OnOk, IfOk, map};
ghost use Rattle.cat_code.specs.Places as words;
ghost use Rattle.cat_verify_tables.specs.TableWords.{numbered};

use crate::numbers::fitting;
use cat_code::{CasePlace, CasePlaces};
use cat_pos::List;
use cat_value::{Case, Decls, ItemDecl};
use std::alloc::{AllocError, Global};

/// A function: its scope, and its item there.
#[derive(Clone, Copy, Debug)]
pub struct FunctionPlace {
    pub scope: u32,
    pub item: u32,
}

pub type FunctionPlaces = List<FunctionPlace>;

fn add_functions(
    places: &mut FunctionPlaces,
    scope: u32,
    items: &[ItemDecl],
) -> Result<(), AllocError>
    ensures { OnOk result (places.new ≡ places.old ++ map numbered (words.functions_in scope 0 items.now)) }
{
    for (number, item) in items.iter().enumerate() {
        if !item.is_function() {
            continue;
        }
        let item = fitting(number)?;
        places.push(FunctionPlace { scope, item })?;
    }
    Ok(())
}

/// All functions, by scope and item.
pub(crate) fn function_places(alloc: Global, decls: &Decls) -> Result<FunctionPlaces, AllocError>
    ensures { IfOk result (λ places. places ≡ map numbered (words.function_places decls.now)) }
{
    let mut places = List::new(alloc);
    for (number, scope) in decls.scopes.as_slice().iter().enumerate() {
        add_functions(&mut places, fitting(number)?, scope.items.as_slice())?;
    }
    Ok(places)
}

fn add_cases(places: &mut CasePlaces, enumeration: u32, cases: &[Case]) -> Result<(), AllocError>
    ensures { OnOk result (places.new ≡ places.old ++ words.places_in enumeration 0 cases.now) }
{
    for (case, _) in cases.iter().enumerate() {
        let case = fitting(case)?;
        places.push(CasePlace { enumeration, case })?;
    }
    Ok(())
}

/// All cases, in the order of their declarations.
pub(crate) fn case_places(alloc: Global, decls: &Decls) -> Result<CasePlaces, AllocError>
    ensures { IfOk result (λ places. places ≡ words.case_places 0 decls.now.enumerations) }
{
    let mut places = List::new(alloc);
    for (number, enumeration) in decls.enumerations.as_slice().iter().enumerate() {
        add_cases(&mut places, fitting(number)?, enumeration.cases.as_slice())?;
    }
    Ok(places)
}
