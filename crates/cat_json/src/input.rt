//! Reads inputs.
ghost use Rattle.std.specs.Prelude.{◌≡◌, ◌≢◌, ◌<◌, ◌≤◌, IfOk, IfErr, Ok, Err, IsTrue, None, Some, true, false, length};
ghost use Rattle.std.specs.Option.{option_map};
ghost use Rattle.serde_json.specs.Data.{depth as nesting, items_depth};
ghost use Rattle.serde_json.specs.Read.{max_depth};
ghost use Rattle.serde_json.specs.View.{view, items_view};
ghost use Rattle.serde_json.specs.Find.{as_array, as_object};
ghost use Rattle.cat_value.specs.Inputs.{must_be_given, may_be_given, IsWellTyped};
ghost use Rattle.cat_value.specs.Typing.{has_type, is_type};
ghost use Rattle.cat_json.specs.declared.refusal.InputRefusal.TheVariants.{NotJson, Memory};
ghost use Rattle.cat_json.specs.Reads.{data_members};
ghost use Rattle.cat_json.specs.InputsRead as inputs;

use crate::known::{extra, unknown_variable};
use crate::reading::{member_in, read_at};
use crate::{InputRefusal, PartRefusal, Reason};
use cat_pos::{List, Text};
use cat_value::{Decls, Input, ItemDecl, ItemDecls, Kind, Ty, Value};
use serde_json::Value as Json;
use std::alloc::{AllocError, Global};

/// How deep the reader lets JSON nest.
const MOST_NESTING: u32 = 127;

/// An input, or why an element is none, for each element of an array.
pub type ReadInputs = List<Result<Input, InputRefusal>>;

/// The value of a type that bytes are.
#[tactic(auto, using(crate::proofs::InputsTyped::typed))]
pub fn read_value(
    alloc: Global,
    bytes: &[u8],
    ty: &Ty,
    decls: &Decls,
) -> Result<Value, InputRefusal>
    ensures read { IfOk result (λ value. inputs.value_read decls.now ty.now bytes.now ≡ Ok value) }
    ensures refused { IfErr result (λ refusal. refusal ≢ Memory → inputs.value_read decls.now ty.now bytes.now ≡
        Err refusal) }
    ensures typed { IfOk result (λ value. IsTrue (is_type decls.now ty.now) →
        IsTrue (has_type decls.now value ty.now)) }
{
    let json = json_of(alloc, bytes)?;
    match read_at(alloc, &json, ty, decls, MOST_NESTING)? {
        Ok(value) => Ok(value),
        Err(refusal) => Err(told(alloc, refusal)?),
    }
}

/// The input of a scope that bytes are.
pub fn read_input(
    alloc: Global,
    bytes: &[u8],
    decls: &Decls,
    scope: u32,
) -> Result<Input, InputRefusal>
    requires { scope < length decls.now.scopes }
    ensures read { IfOk result (λ input. inputs.input_read decls.now scope bytes.now ≡ Ok input) }
    ensures refused { IfErr result (λ refusal. refusal ≢ Memory → inputs.input_read decls.now scope bytes.now ≡
        Err refusal) }
    ensures typed { IfOk result (λ input. IsWellTyped decls.now scope input) }
{
    let json = json_of(alloc, bytes)?;
    let items = &decls.scopes.at(scope as usize).items;
    match input_in(alloc, &json, items, decls)? {
        Ok(input) => Ok(input),
        Err(refusal) => Err(told(alloc, refusal)?),
    }
}

/// For each element of an array the input of a scope that it is, or why it is none.
pub fn read_inputs(
    alloc: Global,
    bytes: &[u8],
    decls: &Decls,
    scope: u32,
) -> Result<ReadInputs, InputRefusal>
    requires { scope < length decls.now.scopes }
    ensures read { IfOk result (λ all. inputs.inputs_read decls.now scope bytes.now ≡ Ok all) }
    ensures refused { IfErr result (λ refusal. refusal ≢ Memory → inputs.inputs_read decls.now scope bytes.now ≡
        Err refusal) }
    ensures typed { IfOk result (λ all. inputs.AreWellTyped decls.now scope all) }
{
    let items = &decls.scopes.at(scope as usize).items;
    match elements_of(json_of(alloc, bytes)?) {
        Some(elements) => Ok(each_input(alloc, elements, items, decls)?),
        None => Err(told(alloc, PartRefusal::new(alloc, Reason::WrongForm))?),
    }
}

/// The JSON that bytes are.
#[tactic(auto, using(crate::proofs::JsonRead::reading))]
fn json_of(alloc: Global, bytes: &[u8]) -> Result<Json, InputRefusal>
    ensures read { IfOk result (λ json. inputs.json_of bytes.now ≡ Some (view json)) }
    ensures nests { IfOk result (λ json. nesting (view json) ≤ max_depth) }
    ensures refused { IfErr result (λ refusal. refusal ≢ Memory →
        (refusal ≡ NotJson) × (inputs.json_of bytes.now ≡ None)) }
{
    match Json::from_slice(alloc, bytes) {
        Ok(json) => Ok(json),
        Err(error) if error.is_memory() => Err(InputRefusal::Memory),
        Err(_) => Err(InputRefusal::NotJson),
    }
}

/// A refusal with its path as text.
fn told(alloc: Global, refusal: PartRefusal) -> Result<InputRefusal, AllocError>
    ensures { IfOk result (λ told. told ≡ inputs.refusal_told refusal) }
{
    let PartRefusal { reason, path } = refusal;
    let path = Text::from_string(alloc, path.text(alloc)?)?;
    Ok(match reason {
        Reason::Missing => InputRefusal::Missing(path),
        Reason::Extra => InputRefusal::Extra(path),
        Reason::WrongForm => InputRefusal::WrongForm(path),
        Reason::OutOfRange => InputRefusal::OutOfRange(path),
    })
}

/// The elements of an array.
#[tactic(auto, using(crate::proofs::Elements::elements))]
fn elements_of(json: Json) -> Option<Vec<Json>>
    ensures { option_map (λ elements. items_view elements.items) result ≡ as_array (view json) }
{
    match json {
        Json::Array(elements) => Some(elements),
        _ => None,
    }
}

/// The input that an element is, or why it is none.
fn element_read(
    alloc: Global,
    element: &Json,
    items: &ItemDecls,
    decls: &Decls,
) -> Result<Result<Input, InputRefusal>, AllocError>
    requires { nesting (view element.now) ≤ 127 }
    ensures { IfOk result (λ read. read ≡ inputs.answered (inputs.input_in decls.now items.now (view element.now))) }
{
    match input_in(alloc, element, items, decls)? {
        Ok(input) => Ok(Ok(input)),
        Err(refusal) => Ok(Err(told(alloc, refusal)?)),
    }
}

/// What each element is. An element is dropped as soon as it is read, so that it and its input never wait beside one
/// another.
fn each_input(
    alloc: Global,
    elements: Vec<Json>,
    items: &ItemDecls,
    decls: &Decls,
) -> Result<ReadInputs, AllocError>
    requires { items_depth (items_view elements.items) ≤ 127 }
    ensures { IfOk result (λ all. all ≡ inputs.each_input decls.now items.now (items_view elements.items)) }
{
    let mut inputs = List::new(alloc);
    for element in elements {
        inputs.push(element_read(alloc, &element, items, decls)?)?;
    }
    Ok(inputs)
}

fn input_in(
    alloc: Global,
    json: &Json,
    items: &ItemDecls,
    decls: &Decls,
) -> Result<Result<Input, PartRefusal>, AllocError>
    requires { nesting (view json.now) ≤ 127 }
    ensures { IfOk result (λ read. read ≡ inputs.input_in decls.now items.now (view json.now)) }
{
    let Some(members) = json.as_object() else {
        return Ok(Err(PartRefusal::new(alloc, Reason::WrongForm)));
    };
    match items_in(alloc, json, items, decls)? {
        Ok(input) => match unknown_variable(alloc, members, items)? {
            None => Ok(Ok(input)),
            Some(key) => Ok(Err(extra(alloc, key)?)),
        },
        Err(refusal) => Ok(Err(refusal)),
    }
}

fn items_in(
    alloc: Global,
    json: &Json,
    items: &ItemDecls,
    decls: &Decls,
) -> Result<Result<Input, PartRefusal>, AllocError>
    requires { nesting (view json.now) ≤ 127 }
    ensures { IfOk result (λ read. read ≡ inputs.items_in (data_members decls.now (view json.now)) items.now) }
{
    let mut input = List::new(alloc);
    for item in items.as_slice() {
        match item_in(alloc, json, item, decls)? {
            Ok(given) => input.push(given)?,
            Err(refusal) => return Ok(Err(refusal)),
        }
    }
    Ok(Ok(input))
}

/// What an item is given: nothing, where nothing may be given or a context variable has no key.
fn item_in(
    alloc: Global,
    json: &Json,
    item: &ItemDecl,
    decls: &Decls,
) -> Result<Result<Option<Value>, PartRefusal>, AllocError>
    requires { nesting (view json.now) ≤ 127 }
    ensures { IfOk result (λ read. read ≡ inputs.item_in (data_members decls.now (view json.now)) item.now) }
{
    match item.kind {
        Kind::Input | Kind::InputOutput => given_in(alloc, json, item, decls),
        Kind::Context | Kind::ContextOutput => optional_in(alloc, json, item, decls),
        Kind::Output | Kind::Internal | Kind::Called(_) => Ok(Ok(None)),
    }
}

#[tactic(auto, using(crate::proofs::Levels::parts))]
fn optional_in(
    alloc: Global,
    json: &Json,
    item: &ItemDecl,
    decls: &Decls,
) -> Result<Result<Option<Value>, PartRefusal>, AllocError>
    requires { nesting (view json.now) ≤ 127 }
    ensures { IfOk result (λ read. read ≡ inputs.optional_in (data_members decls.now (view json.now)) item.now) }
{
    match json.get(item.name.as_str()) {
        Some(_) => given_in(alloc, json, item, decls),
        None => Ok(Ok(None)),
    }
}

fn given_in(
    alloc: Global,
    json: &Json,
    item: &ItemDecl,
    decls: &Decls,
) -> Result<Result<Option<Value>, PartRefusal>, AllocError>
    requires { nesting (view json.now) ≤ 127 }
    ensures { IfOk result (λ read. read ≡ inputs.given_in (data_members decls.now (view json.now)) item.now) }
{
    match member_in(
        alloc,
        json,
        item.name.as_str(),
        &item.ty,
        decls,
        MOST_NESTING,
    )? {
        Ok(value) => Ok(Ok(Some(value))),
        Err(refusal) => Ok(Err(refusal)),
    }
}
