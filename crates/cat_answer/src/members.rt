//! The objects of inputs and outputs.
ghost use Rattle.std.specs.Prelude.{◌≡◌, IfOk};
ghost use Rattle.serde_json.specs.Data.{object, no_members};
ghost use Rattle.serde_json.specs.View.{view};
ghost use Rattle.cat_answer.specs.Writes.{input_data};
ghost use Rattle.cat_answer.specs.Answer.{outputs_data, outputs_object};
ghost use Rattle.cat_value.specs.Inputs.{outputs_in};

use crate::writing::value_json;
use cat_value::{Decls, Input, ItemDecl, ItemDecls, Value, Values};
use serde_json::{Map, Value as Json};
use std::alloc::{AllocError, Global};

/// An object with each variable that is given.
pub(crate) fn input_json(
    alloc: Global,
    input: &Input,
    items: &ItemDecls,
    decls: &Decls,
) -> Result<Json, AllocError>
    ensures { IfOk result (λ json. view json ≡ input_data decls.now items.now input.now) }
{
    let mut members = Map::new(alloc);
    for (number, item) in items.as_slice().iter().enumerate() {
        let given = match input.get(number) {
            Some(given) => given,
            None => return Ok(Json::Object(members)),
        };
        let value = match given {
            Some(value) => value,
            None => continue,
        };
        let name = String::from_str(alloc, item.name.as_str())?;
        members.insert(name, value_json(alloc, value, &item.ty, decls)?)?;
    }
    Ok(Json::Object(members))
}

/// An object with each output.
pub(crate) fn outputs_json(
    alloc: Global,
    values: &Values,
    items: &ItemDecls,
    decls: &Decls,
) -> Result<Json, AllocError>
    ensures { IfOk result (λ json. view json ≡ outputs_object decls.now items.now values.now) }
{
    let mut members = Map::new(alloc);
    let mut number = 0;
    for item in items.as_slice() {
        if !item.kind.is_output() {
            continue;
        }
        let value = match values.get(number) {
            Some(value) => value,
            None => return Ok(Json::Object(members)),
        };
        let name = String::from_str(alloc, item.name.as_str())?;
        members.insert(name, value_json(alloc, value, &item.ty, decls)?)?;
        number += 1;
    }
    Ok(Json::Object(members))
}
