//! Calls that read JSON, in which `%0a` stands for a byte.

use crate::declarations::{SCOPES, declarations};
use crate::types::type_of;
use crate::values::{show, show_input};
use cat_json::{InputRefusal, ReadInputs, read_input, read_inputs, read_value};
use cat_pos::Text;
use cat_rows::{Arguments, Problem, escaped, with_bytes};
use cat_value::Input;
use std::alloc::{AllocError, Global};

/// The value of a type that a text is, or the refusal.
pub fn read_value_answer(alloc: Global, given: &mut Arguments<'_>) -> Result<String, Problem> {
    let ty = type_of(alloc, given.word())?;
    let bytes = with_bytes(alloc, given.rest(), "%")?;
    let decls = declarations(alloc)?;
    match read_value(alloc, &bytes, &ty, &decls) {
        Ok(value) => Ok(show(alloc, &value)?),
        Err(refusal) => refused(alloc, &refusal),
    }
}

/// The input of a scope that a text is, or the refusal.
pub fn read_input_answer(alloc: Global, given: &mut Arguments<'_>) -> Result<String, Problem> {
    let scope = given.choice(&SCOPES)?;
    let bytes = with_bytes(alloc, given.rest(), "%")?;
    let decls = declarations(alloc)?;
    if scope as usize >= decls.scopes.len() {
        return Err(Problem::Unreadable);
    }
    let read = read_input(alloc, &bytes, &decls, scope);
    input_shown(alloc, &read)
}

/// What each element of an array is, followed by `;`, or the refusal of the whole.
pub fn read_inputs_answer(alloc: Global, given: &mut Arguments<'_>) -> Result<String, Problem> {
    let scope = given.choice(&SCOPES)?;
    let bytes = with_bytes(alloc, given.rest(), "%")?;
    let decls = declarations(alloc)?;
    if scope as usize >= decls.scopes.len() {
        return Err(Problem::Unreadable);
    }
    match read_inputs(alloc, &bytes, &decls, scope) {
        Ok(inputs) => inputs_shown(alloc, &inputs),
        Err(refusal) => refused(alloc, &refusal),
    }
}

fn inputs_shown(alloc: Global, inputs: &ReadInputs) -> Result<String, Problem> {
    let mut text = String::new(alloc);
    for read in inputs.as_slice() {
        text.push_str(input_shown(alloc, read)?.as_str())?;
        text.push_str(";")?;
    }
    Ok(text)
}

fn input_shown(alloc: Global, read: &Result<Input, InputRefusal>) -> Result<String, Problem> {
    match read {
        Ok(input) => Ok(show_input(alloc, input)?),
        Err(refusal) => refused(alloc, refusal),
    }
}

fn refused(alloc: Global, refusal: &InputRefusal) -> Result<String, Problem> {
    match refusal {
        InputRefusal::NotJson => Ok(String::from_str(alloc, "I1")?),
        InputRefusal::Missing(path) => Ok(at(alloc, "I2", path)?),
        InputRefusal::Extra(path) => Ok(at(alloc, "I3", path)?),
        InputRefusal::WrongForm(path) => Ok(at(alloc, "I4", path)?),
        InputRefusal::OutOfRange(path) => Ok(at(alloc, "I5", path)?),
        InputRefusal::Memory => Err(Problem::Memory),
    }
}

fn at(alloc: Global, code: &str, path: &Text) -> Result<String, AllocError> {
    let path = escaped(alloc, path.as_str())?;
    format!(in alloc; "{code} {path}")
}
