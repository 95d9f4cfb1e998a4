//! The JSON of values and inputs.
ghost use Rattle.std.specs.Prelude.{◌≡◌, IfOk, slice_get};
ghost use Rattle.serde_json.specs.Data.{array, object, no_members};
ghost use Rattle.serde_json.specs.View.{view};
ghost use Rattle.cat_value.specs.declared.ty.Ty.TheViews.{out-Ty};
ghost use Rattle.cat_answer.specs.Writes.{data_of, span_data, input_data};
ghost use Rattle.cat_answer.specs.WrittenParts.{items_data, members_data, list_written, structure_written};
ghost use Rattle.cat_answer.specs.WrittenParts.{case_written, numbered_written, content_written, enumeration_written};

use cat_date::{Span, show_day};
use cat_num::{decimal_text, money_text};
use cat_pos::Boxed;
use cat_value::{Case, Decls, Fields, Input, ItemDecls, Ty, Value, Values};
use serde_json::{Map, Value as Json};
use std::alloc::{AllocError, Global};

/// The JSON of a value of the type. What is written of a value of another type says nothing of it.
#[cycle(write)]
#[tactic(auto, using(crate::proofs::WriteEquations::writing))]
pub(crate) fn value_json(
    alloc: Global,
    value: &Value,
    ty: &Ty,
    decls: &Decls,
) -> Result<Json, AllocError>
    ensures { IfOk result (λ json. view json ≡ data_of decls.now value.now ty.now) }
{
    match value {
        Value::Boolean(truth) => Ok(Json::from(*truth)),
        Value::Integer(whole) => Ok(Json::from(whole.get())),
        Value::Decimal(frac) => Ok(Json::from(decimal_text(alloc, *frac)?)),
        Value::Money(money) => Ok(Json::from(money_text(alloc, *money)?)),
        Value::Date(day) => Ok(Json::from(show_day(alloc, *day)?)),
        Value::Duration(span) => span_json(alloc, *span),
        Value::List(elements) => list_json(alloc, elements, ty, decls),
        Value::Structure(values) => structure_json(alloc, values, ty, decls),
        Value::Case(case, content) => case_json(alloc, *case, content, ty, decls),
    }
}

fn span_json(alloc: Global, span: Span) -> Result<Json, AllocError>
    ensures { IfOk result (λ json. view json ≡ span_data span) }
{
    let mut members = Map::new(alloc);
    members.insert(String::from_str(alloc, "days")?, Json::from(span.days()))?;
    members.insert(
        String::from_str(alloc, "months")?,
        Json::from(span.months()),
    )?;
    Ok(Json::Object(members))
}

#[cycle(write)]
fn list_json(alloc: Global, elements: &Values, ty: &Ty, decls: &Decls) -> Result<Json, AllocError>
    ensures { IfOk result (λ json. view json ≡ list_written decls.now elements.now (out-Ty ty.now)) }
{
    match ty {
        Ty::List(element) => elements_json(alloc, elements, element.get(), decls),
        _ => Ok(Json::Null),
    }
}

#[cycle(write)]
fn elements_json(
    alloc: Global,
    elements: &Values,
    ty: &Ty,
    decls: &Decls,
) -> Result<Json, AllocError>
    ensures { IfOk result (λ json. view json ≡ array (items_data decls.now elements.now ty.now)) }
{
    let mut items = Vec::new(alloc);
    for element in elements.as_slice() {
        items.push(value_json(alloc, element, ty, decls)?)?;
    }
    Ok(Json::Array(items))
}

#[cycle(write)]
fn structure_json(
    alloc: Global,
    values: &Values,
    ty: &Ty,
    decls: &Decls,
) -> Result<Json, AllocError>
    ensures { IfOk result (λ json. view json ≡ structure_written decls.now values.now (out-Ty ty.now)) }
{
    match ty {
        Ty::Structure(structure) => match decls.structures.get(*structure as usize) {
            Some(structure) => fields_json(alloc, values, &structure.fields, decls),
            None => Ok(Json::Null),
        },
        _ => Ok(Json::Null),
    }
}

#[cycle(write)]
fn fields_json(
    alloc: Global,
    values: &Values,
    fields: &Fields,
    decls: &Decls,
) -> Result<Json, AllocError>
    ensures { IfOk result (λ json. view json ≡ object (members_data decls.now fields.now values.now no_members)) }
{
    let mut members = Map::new(alloc);
    for (number, value) in values.as_slice().iter().enumerate() {
        let field = match fields.get(number) {
            Some(field) => field,
            None => return Ok(Json::Object(members)),
        };
        let name = String::from_str(alloc, field.name.as_str())?;
        members.insert(name, value_json(alloc, value, &field.ty, decls)?)?;
    }
    Ok(Json::Object(members))
}

#[cycle(write)]
fn case_json(
    alloc: Global,
    case: u32,
    content: &Option<Boxed<Value>>,
    ty: &Ty,
    decls: &Decls,
) -> Result<Json, AllocError>
    ensures { IfOk result (λ json. view json ≡ enumeration_written decls.now case content.now (out-Ty ty.now)) }
{
    match ty {
        Ty::Enumeration(enumeration) => numbered_json(alloc, case, content, *enumeration, decls),
        _ => Ok(Json::Null),
    }
}

#[cycle(write)]
fn numbered_json(
    alloc: Global,
    case: u32,
    content: &Option<Boxed<Value>>,
    enumeration: u32,
    decls: &Decls,
) -> Result<Json, AllocError>
    ensures { IfOk result (λ json. view json ≡ numbered_written decls.now case content.now
        (slice_get decls.now.enumerations enumeration)) }
{
    match decls.enumerations.get(enumeration as usize) {
        Some(enumeration) => match enumeration.cases.get(case as usize) {
            Some(case) => content_json(alloc, case, content, decls),
            None => Ok(Json::Null),
        },
        None => Ok(Json::Null),
    }
}

#[cycle(write)]
fn content_json(
    alloc: Global,
    case: &Case,
    content: &Option<Boxed<Value>>,
    decls: &Decls,
) -> Result<Json, AllocError>
    ensures { IfOk result (λ json. view json ≡ content_written decls.now case.now.name case.now.content content.now) }
{
    match (&case.content, content) {
        (None, None) => Json::try_from_str(alloc, case.name.as_str()),
        (Some(ty), Some(content)) => {
            let mut members = Map::new(alloc);
            let name = String::from_str(alloc, case.name.as_str())?;
            members.insert(name, value_json(alloc, content.get(), ty, decls)?)?;
            Ok(Json::Object(members))
        }
        _ => Ok(Json::Null),
    }
}
