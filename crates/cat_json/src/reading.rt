//! Reads values of all types.
ghost use Rattle.std.specs.Prelude.{◌≡◌, ◌≤◌, ◌<◌, IfOk, Some, length, slice_get};
ghost use Rattle.std.specs.Option.{option_map};
ghost use Rattle.serde_json.specs.Data.{depth as nesting, items_depth};
ghost use Rattle.serde_json.specs.Find.{as_array, as_object, as_str};
ghost use Rattle.serde_json.specs.View.{view, items_view};
ghost use Rattle.cat_value.specs.Entries.{fields_of};
ghost use Rattle.cat_json.specs.Paths.{of_whole};
ghost use Rattle.cat_json.specs.Reads as reads;
ghost use Rattle.cat_json.specs.Reads.{read_as, elements_of, data_elements, data_members, only_key};

use crate::duration::duration_in;
use crate::known::{extra, unknown_field};
use crate::scalar::{boolean_in, date_in, decimal_in, integer_in, money_in};
use crate::{PartRefusal, Reason, Step};
use cat_pos::{Boxed, ENTRIES_BOUND, List, Text};
use cat_value::{Case, Cases, Decls, Fields, Ty, Value, Values, declarations_are_sound};
use serde_json::Value as Json;
use std::alloc::{AllocError, Global};

/// The most elements that a list has.
const MOST_ELEMENTS: usize = i64::MAX as usize;

/// What JSON that nests at most `depth` deep is read as.
#[cycle(read)]
#[tactic(auto, using(crate::proofs::Levels::levels))]
pub(crate) fn read_at(
    alloc: Global,
    value: &Json,
    ty: &Ty,
    decls: &Decls,
    depth: u32,
) -> Result<Result<Value, PartRefusal>, AllocError>
    requires { nesting (view value.now) ≤ depth }
    ensures { IfOk result (λ read. read ≡ read_as decls.now (view value.now) ty.now) }
{
    match ty {
        Ty::Boolean => Ok(whole_read(alloc, boolean_in(value))),
        Ty::Integer => Ok(whole_read(alloc, integer_in(value))),
        Ty::Decimal => Ok(whole_read(alloc, decimal_in(value))),
        Ty::Money => Ok(whole_read(alloc, money_in(value))),
        Ty::Date => Ok(whole_read(alloc, date_in(value))),
        Ty::Duration => duration_in(alloc, value),
        Ty::List(element) => list_in(alloc, value, element.get(), decls, depth),
        Ty::Structure(structure) => structure_in(alloc, value, *structure, decls, depth),
        Ty::Enumeration(enumeration) => enumeration_in(alloc, value, *enumeration, decls, depth),
    }
}

/// What is read, where each refusal is one of the whole.
fn whole_read(alloc: Global, read: Result<Value, Reason>) -> Result<Value, PartRefusal>
    ensures { result ≡ of_whole read }
{
    match read {
        Ok(value) => Ok(value),
        Err(reason) => Err(PartRefusal::new(alloc, reason)),
    }
}

#[cycle(read)]
#[tactic(auto, using(crate::proofs::Levels::parts))]
fn list_in(
    alloc: Global,
    value: &Json,
    element: &Ty,
    decls: &Decls,
    depth: u32,
) -> Result<Result<Value, PartRefusal>, AllocError>
    requires { nesting (view value.now) ≤ depth }
    ensures { IfOk result (λ read. read ≡ reads.list_in (as_array (view value.now))
        (data_elements decls.now (view value.now)) element.now) }
{
    let Some(elements) = value.as_array() else {
        return Ok(Err(PartRefusal::new(alloc, Reason::WrongForm)));
    };
    if elements.len() > MOST_ELEMENTS {
        return Ok(Err(PartRefusal::new(alloc, Reason::OutOfRange)));
    }
    match elements_in(alloc, elements.as_slice(), element, decls, depth - 1)? {
        Ok(values) => Ok(Ok(Value::List(values))),
        Err(refusal) => Ok(Err(refusal)),
    }
}

#[cycle(read)]
#[tactic(auto, using(crate::proofs::Levels::parts))]
fn elements_in(
    alloc: Global,
    elements: &[Json],
    ty: &Ty,
    decls: &Decls,
    depth: u32,
) -> Result<Result<Values, PartRefusal>, AllocError>
    requires { items_depth (items_view elements.now) ≤ depth }
    ensures { IfOk result (λ read. read ≡ reads.elements_in 0 (elements_of decls.now (items_view elements.now))
        ty.now) }
{
    let mut values = List::new(alloc);
    for (k, element) in elements.iter().enumerate() {
        match read_at(alloc, element, ty, decls, depth)? {
            Ok(value) => values.push(value)?,
            Err(refusal) => return Ok(Err(refusal.under(Step::Element(k))?)),
        }
    }
    Ok(Ok(values))
}

#[cycle(read)]
#[tactic(auto, using(crate::proofs::Levels::parts))]
fn structure_in(
    alloc: Global,
    value: &Json,
    structure: u32,
    decls: &Decls,
    depth: u32,
) -> Result<Result<Value, PartRefusal>, AllocError>
    requires { nesting (view value.now) ≤ depth }
    ensures { IfOk result (λ read. read ≡ reads.structure_in (fields_of decls.now structure)
        (as_object (view value.now)) (data_members decls.now (view value.now))) }
{
    let Some(structure) = decls.structures.get(structure as usize) else {
        return Ok(Err(PartRefusal::new(alloc, Reason::WrongForm)));
    };
    let Some(members) = value.as_object() else {
        return Ok(Err(PartRefusal::new(alloc, Reason::WrongForm)));
    };
    match field_values(alloc, value, &structure.fields, decls, depth)? {
        Ok(values) => match unknown_field(alloc, members, &structure.fields)? {
            None => Ok(Ok(Value::Structure(values))),
            Some(key) => Ok(Err(extra(alloc, key)?)),
        },
        Err(refusal) => Ok(Err(refusal)),
    }
}

#[cycle(read)]
fn field_values(
    alloc: Global,
    value: &Json,
    fields: &Fields,
    decls: &Decls,
    depth: u32,
) -> Result<Result<Values, PartRefusal>, AllocError>
    requires { nesting (view value.now) ≤ depth }
    ensures { IfOk result (λ read. read ≡ reads.field_values (data_members decls.now (view value.now)) fields.now) }
{
    let mut values = List::new(alloc);
    for field in fields.as_slice() {
        match member_in(alloc, value, field.name.as_str(), &field.ty, decls, depth)? {
            Ok(value) => values.push(value)?,
            Err(refusal) => return Ok(Err(refusal)),
        }
    }
    Ok(Ok(values))
}

/// The member of that name.
#[cycle(read)]
#[tactic(auto, using(crate::proofs::Levels::parts))]
pub(crate) fn member_in(
    alloc: Global,
    value: &Json,
    name: &str,
    ty: &Ty,
    decls: &Decls,
    depth: u32,
) -> Result<Result<Value, PartRefusal>, AllocError>
    requires { nesting (view value.now) ≤ depth }
    ensures { IfOk result (λ read. read ≡ reads.member_in (data_members decls.now (view value.now)) name.now ty.now) }
{
    let read = match value.get(name) {
        Some(member) => read_at(alloc, member, ty, decls, depth - 1)?,
        None => Err(PartRefusal::new(alloc, Reason::Missing)),
    };
    match read {
        Ok(value) => Ok(Ok(value)),
        Err(refusal) => {
            let step = Step::Name(Text::from_str(alloc, name)?);
            Ok(Err(refusal.under(step)?))
        }
    }
}

#[cycle(read)]
fn enumeration_in(
    alloc: Global,
    value: &Json,
    enumeration: u32,
    decls: &Decls,
    depth: u32,
) -> Result<Result<Value, PartRefusal>, AllocError>
    requires { nesting (view value.now) ≤ depth }
    ensures { IfOk result (λ read. read ≡ reads.enumeration_in (slice_get decls.now.enumerations enumeration)
        (as_str (view value.now)) (as_object (view value.now)) (data_members decls.now (view value.now))) }
{
    declarations_are_sound(decls);
    let Some(enumeration) = decls.enumerations.get(enumeration as usize) else {
        return Ok(Err(PartRefusal::new(alloc, Reason::WrongForm)));
    };
    match value.as_str() {
        Some(name) => Ok(whole_read(alloc, bare_case(&enumeration.cases, name))),
        None => only_case(alloc, value, &enumeration.cases, decls, depth),
    }
}

/// The case of that name without content.
fn bare_case(cases: &Cases, name: &str) -> Result<Value, Reason>
    requires { length cases.now < ENTRIES_BOUND }
    ensures { of_whole result ≡ reads.bare_case (reads.case_named 0 name.now cases.now) }
{
    match case_named(cases, name) {
        Some((number, case)) => match &case.content {
            None => Ok(Value::Case(number, None)),
            Some(_) => Err(Reason::WrongForm),
        },
        None => Err(Reason::WrongForm),
    }
}

/// The case that is the one key of an object.
#[cycle(read)]
fn only_case(
    alloc: Global,
    value: &Json,
    cases: &Cases,
    decls: &Decls,
    depth: u32,
) -> Result<Result<Value, PartRefusal>, AllocError>
    requires nests { nesting (view value.now) ≤ depth }
    requires counted { length cases.now < ENTRIES_BOUND }
    ensures { IfOk result (λ read. read ≡ reads.only_case (data_members decls.now (view value.now)) cases.now
        (only_key (as_object (view value.now)))) }
{
    let Some(name) = only_key(value) else {
        return Ok(Err(PartRefusal::new(alloc, Reason::WrongForm)));
    };
    let Some((number, case)) = case_named(cases, name) else {
        return Ok(Err(PartRefusal::new(alloc, Reason::WrongForm)));
    };
    match &case.content {
        Some(content) => full_case(alloc, value, name, number, content, decls, depth),
        None => Ok(Err(PartRefusal::new(alloc, Reason::WrongForm))),
    }
}

/// The case of that number with the content that is the member of its name.
#[cycle(read)]
fn full_case(
    alloc: Global,
    value: &Json,
    name: &str,
    number: u32,
    content: &Ty,
    decls: &Decls,
    depth: u32,
) -> Result<Result<Value, PartRefusal>, AllocError>
    requires { nesting (view value.now) ≤ depth }
    ensures { IfOk result (λ read. read ≡ reads.full_case (data_members decls.now (view value.now)) name.now
        (Some (number, Some content.now))) }
{
    match member_in(alloc, value, name, content, decls, depth)? {
        Ok(content) => {
            let content = Boxed::new(alloc, content)?;
            Ok(Ok(Value::Case(number, Some(content))))
        }
        Err(refusal) => Ok(Err(refusal)),
    }
}

/// The first case of that name, with its number.
fn case_named<'a>(cases: &'a Cases, name: &str) -> Option<(u32, &'a Case)>
    requires { length cases.now < ENTRIES_BOUND }
    ensures { option_map (λ found. (found.0, found.1.now.content)) result ≡ reads.case_named 0 name.now cases.now }
{
    for (number, case) in cases.as_slice().iter().enumerate() {
        if case.name.is(name) {
            return Some((number as u32, case));
        }
    }
    None
}

/// The key of an object that has one key.
#[tactic(auto, using(crate::proofs::Levels::keys))]
fn only_key(value: &Json) -> Option<&str>
    ensures { option_map (λ key. key.now) result ≡ only_key (as_object (view value.now)) }
{
    let members = value.as_object()?;
    if members.len() != 1 {
        return None;
    }
    let (key, _) = members.first_key_value()?;
    Some(key.as_str())
}
