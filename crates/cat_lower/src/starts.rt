// Tables of numbers that are made once.
ghost use Rattle.std.specs.Prelude.{◌≡◌, IfOk};
ghost use Rattle.cat_lower.specs.Starts as words;

use crate::growing::{added, fitting};
use cat_pos::{List, NumberLists, Numbers};
use cat_value::{Enumerations, ItemDecls, Scopes};
use std::alloc::{AllocError, Global};

/// For each enumeration how many cases stand in front of its own.
pub fn case_starts(alloc: Global, enumerations: &Enumerations) -> Result<Numbers, AllocError>
    ensures { IfOk result (λ starts. starts ≡ words.case_starts 0 enumerations.now) }
{
    let mut starts = List::new(alloc);
    let mut total = 0usize;
    for enumeration in enumerations.as_slice() {
        let start = fitting(total)?;
        starts.push(start)?;
        total = added(total, enumeration.cases.len())?;
    }
    Ok(starts)
}

/// For each item how many functions stand in front of it.
pub fn function_starts(alloc: Global, items: &ItemDecls) -> Result<Numbers, AllocError>
    ensures { IfOk result (λ starts. starts ≡ words.function_starts 0 items.now) }
{
    let mut starts = List::new(alloc);
    let mut total = 0usize;
    for item in items.as_slice() {
        let start = fitting(total)?;
        starts.push(start)?;
        if !item.is_function() {
            continue;
        }
        total = added(total, 1)?;
    }
    Ok(starts)
}

/// The numbers of the outputs among items.
fn output_numbers(alloc: Global, items: &ItemDecls) -> Result<Numbers, AllocError>
    ensures { IfOk result (λ numbers. numbers ≡ words.output_numbers 0 items.now) }
{
    let mut numbers = List::new(alloc);
    for (number, item) in items.as_slice().iter().enumerate() {
        if !item.kind.is_output() {
            continue;
        }
        let output = fitting(number)?;
        numbers.push(output)?;
    }
    Ok(numbers)
}

/// The same of each scope.
pub fn outputs_of_each(alloc: Global, scopes: &Scopes) -> Result<NumberLists, AllocError>
    ensures { IfOk result (λ outputs. outputs ≡ words.outputs_of_each scopes.now) }
{
    let mut outputs = List::new(alloc);
    for scope in scopes.as_slice() {
        let numbers = output_numbers(alloc, &scope.items)?;
        outputs.push(numbers)?;
    }
    Ok(outputs)
}
