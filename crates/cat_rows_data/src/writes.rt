//! Calls that write what was read from JSON, in which `%0a` stands for a byte.
ghost use Rattle.std.specs.Prelude.{◌<◌, length};

use crate::declarations::{SCOPES, declarations};
use crate::types::type_of;
use cat_answer::{answer_text, input_text, value_text};
use cat_json::{read_input, read_value};
use cat_pos::{Files, List};
use cat_rows::{Arguments, Problem, with_bytes};
use cat_value::{Decls, ItemDecls, Kind, Outcome, Ty, Values};
use std::alloc::{AllocError, Global};

/// The text that is written for the value that a text is.
pub fn write_value_answer(alloc: Global, given: &mut Arguments<'_>) -> Result<String, Problem> {
    let ty = type_of(alloc, given.word())?;
    let bytes = with_bytes(alloc, given.rest(), "%")?;
    let decls = declarations(alloc)?;
    let value = read_value(alloc, &bytes, &ty, &decls);
    let value = value.ok().ok_or(Problem::Unreadable)?;
    Ok(value_text(alloc, &value, &ty, &decls)?)
}

/// The text that is written for the input that a text is.
pub fn write_input_answer(alloc: Global, given: &mut Arguments<'_>) -> Result<String, Problem> {
    let scope = given.choice(&SCOPES)?;
    let bytes = with_bytes(alloc, given.rest(), "%")?;
    let decls = declarations(alloc)?;
    if scope as usize >= decls.scopes.len() {
        return Err(Problem::Unreadable);
    }
    let input = read_input(alloc, &bytes, &decls, scope);
    let input = input.ok().ok_or(Problem::Unreadable)?;
    Ok(input_text(alloc, &input, &decls, scope)?)
}

/// The line that is written for a scope whose one output has the value that a text is.
pub fn write_answer(alloc: Global, given: &mut Arguments<'_>) -> Result<String, Problem> {
    let scope = given.choice(&SCOPES)?;
    let bytes = with_bytes(alloc, given.rest(), "%")?;
    let decls = declarations(alloc)?;
    if scope as usize >= decls.scopes.len() {
        return Err(Problem::Unreadable);
    }
    let items = &decls.scopes.at(scope as usize).items;
    let ty = output_type(items).ok_or(Problem::Unreadable)?;
    let value = read_value(alloc, &bytes, ty, &decls);
    let mut values = List::new(alloc);
    values.push(value.ok().ok_or(Problem::Unreadable)?)?;
    Ok(outputs_text(alloc, values, &decls, scope)?)
}

fn output_type(items: &ItemDecls) -> Option<&Ty> {
    for item in items.as_slice() {
        if item.kind == Kind::Output {
            return Some(&item.ty);
        }
    }
    None
}

fn outputs_text(
    alloc: Global,
    values: Values,
    decls: &Decls,
    scope: u32,
) -> Result<String, AllocError>
    requires { scope < length decls.now.scopes }
{
    let files = Files::new(alloc);
    answer_text(alloc, &Outcome::Value(values), decls, scope, &files)
}
