// Whether fields, inputs and arms are complete.
ghost use Rattle.std.specs.Prelude.{◌≡◌, IfOk, slice_get};
ghost use Rattle.cat_scope.specs.Fitting as words;
ghost use Rattle.cat_scope.specs.Names.{are_all_in, inputs_given, scope_items};
ghost use Rattle.cat_check_forms.specs.Tabled.{IsTabled};

use crate::Here;
use crate::number_set::{NumberSet, set_of};
use cat_pos::{List, Numbers};
use cat_scope::{Arm, ArmPattern, Arms, FieldValues};
use std::alloc::{AllocError, Global};

/// Whether each field of a structure is there once.
pub fn are_fields_of(here: &Here, structure: u32, values: &FieldValues) -> Result<bool, AllocError>
    ensures { IfOk result (λ r. r ≡ words.are_fields_of here.now.decls.now structure (words.numbers_in values.now)) }
{
    let Some(declared) = here.decls.structures.get(structure as usize) else {
        return Ok(false);
    };
    let numbers = numbers_in(here.alloc, values)?;
    if numbers.len() != declared.fields.len() {
        return Ok(false);
    }
    let (given, _) = set_of(here.alloc, numbers.as_slice())?;
    Ok(has_below(&given, declared.fields.len())?)
}

/// Whether a scope is given each input that is no condition, and nothing twice.
pub fn are_call_fields(here: &Here, scope: u32, values: &FieldValues) -> Result<bool, AllocError>
    requires { IsTabled here.now }
    ensures { IfOk result (λ r. r ≡ words.are_call_fields here.now.decls.now scope (words.numbers_in values.now)) }
{
    let numbers = numbers_in(here.alloc, values)?;
    let (given, differ) = set_of(here.alloc, numbers.as_slice())?;
    if !differ {
        return Ok(false);
    }
    Ok(has_inputs(here, scope, &given))
}

/// Whether each input of a scope that must be given is there.
fn has_inputs(here: &Here, scope: u32, given: &NumberSet) -> bool
    requires { IsTabled here.now }
    ensures { result ≡ inputs_given 0 (scope_items here.now.decls.now scope) given.now }
{
    match here.inputs.get(scope as usize) {
        Some(required) => given.has_each(required),
        None => true,
    }
}

/// Whether each number below a bound is there.
fn has_below(given: &NumberSet, count: usize) -> Result<bool, AllocError>
    ensures { IfOk result (λ r. r ≡ are_all_in count given.now) }
{
    match u32::try_from(count) {
        Ok(count) => Ok(given.has_all(count)),
        Err(_) => Err(AllocError),
    }
}

fn numbers_in(alloc: Global, values: &FieldValues) -> Result<Numbers, AllocError>
    ensures { IfOk result (λ numbers. numbers ≡ words.numbers_in values.now) }
{
    let mut numbers = List::new(alloc);
    for value in values.as_slice() {
        numbers.push(value.field)?;
    }
    Ok(numbers)
}

/// Whether no case is missing or twice, and `anything` is last.
pub fn are_complete(here: &Here, enumeration: u32, arms: &Arms) -> Result<bool, AllocError>
    ensures { IfOk result (λ r. r ≡ words.are_complete here.now.decls.now enumeration arms.now) }
{
    let numbers = cases_of(here.alloc, arms)?;
    let (cases, differ) = set_of(here.alloc, numbers.as_slice())?;
    if !anything_is_last(arms) {
        return Ok(false);
    }
    if !differ {
        return Ok(false);
    }
    if ends_in_anything(arms.as_slice()) {
        return Ok(true);
    }
    Ok(has_all_cases(here, enumeration, &cases)?)
}

fn has_all_cases(here: &Here, enumeration: u32, cases: &NumberSet) -> Result<bool, AllocError>
    ensures { IfOk result (λ r. r
        ≡ are_all_in (words.cases_in (slice_get here.now.decls.now.enumerations enumeration)) cases.now) }
{
    match here.decls.enumerations.get(enumeration as usize) {
        Some(declared) => has_below(cases, declared.cases.len()),
        None => Ok(true),
    }
}

fn cases_of(alloc: Global, arms: &Arms) -> Result<Numbers, AllocError>
    ensures { IfOk result (λ cases. cases ≡ words.cases_of arms.now) }
{
    let mut cases = List::new(alloc);
    for arm in arms.as_slice() {
        let ArmPattern::Case(case, _) = arm.pattern else {
            continue;
        };
        cases.push(case)?;
    }
    Ok(cases)
}

fn is_anything(pattern: ArmPattern) -> bool
    ensures { result ≡ words.is_anything pattern }
{
    match pattern {
        ArmPattern::Anything => true,
        ArmPattern::Case(_, _) => false,
    }
}

fn anything_is_last(arms: &Arms) -> bool
    ensures { result ≡ words.anything_is_last arms.now }
{
    for (number, arm) in arms.as_slice().iter().enumerate() {
        if is_anything(arm.pattern) {
            return number + 1 == arms.len();
        }
    }
    true
}

fn ends_in_anything(arms: &[Arm]) -> bool
    ensures { result ≡ words.ends_in_anything arms.now }
{
    match arms.last() {
        Some(arm) => is_anything(arm.pattern),
        None => false,
    }
}
