// What instructions of structures, lists and cases lead to.
ghost use Rattle.std.specs.Prelude.{◌≡◌, ◌<◌, ◌+◌, ◌^◌, [], replicate, slice_get, IfOk, IfSome};
ghost use Rattle.cat_code.specs.declared.instr.Instr.TheVariants as instr;
ghost use Rattle.cat_code.specs.Flow.{flow};
ghost use Rattle.cat_code.specs.Forms.{form_of};
ghost use Rattle.cat_code.specs.Told.{case_asked};
ghost use Rattle.std.specs.Option.{option_map};
ghost use Rattle.cat_verify_shapes.specs.inside.Senses.{IsLow, StandsIn};
ghost use Rattle.cat_verify_shapes.specs.inside.Told.{Tells};
ghost use Rattle.cat_verify_shapes.specs.inside.Taking.{TakesAll};
ghost use Rattle.cat_verify_shapes.specs.inside.Making.{IsCaseOf, IsInRow, IsParted, PopsRow};

use crate::forms::{Form, Forms};
use crate::leads::{Leads, Stuck, give, pop_as, push};
use crate::shape::Shape;
use cat_code::{Instr, Tables};
use cat_value::{Decls, Ty};
use std::alloc::AllocError;

/// Pops so many operands: the number of their types in a row.
fn pop_row(
    tables: &Tables,
    forms: &Forms,
    shape: &mut Shape,
    count: u32,
) -> Result<Option<u32>, AllocError>
    ensures { IfOk result (PopsRow tables.now forms.now shape.old shape.new count) }
{
    let mut row = forms.find(Form::Last)?;
    for _ in 0..count {
        let Some(form) = shape.operands.pop() else {
            return Ok(None);
        };
        row = forms.find(Form::More(form, row))?;
    }
    Ok(Some(row))
}

pub(crate) fn pack(
    tables: &Tables,
    forms: &Forms,
    place: usize,
    mut shape: Shape,
    count: u32,
) -> Result<Leads, Stuck>
    requires { place + 1 < 2 ^ 64 }
    ensures { Tells tables.now forms.now result (flow tables.now [] (instr.Pack count) place) shape }
{
    let Some(row) = pop_row(tables, forms, &mut shape, count)? else {
        return Err(Stuck::Bad);
    };
    let form = forms.find(Form::Fields(row))?;
    Ok(push(place, shape, form)?)
}

/// Pops so many operands of a type, where they are on top.
fn pop_same(shape: &mut Shape, form: u32, count: u32) -> bool
    ensures { TakesAll shape.old shape.new (replicate count form) result }
{
    for _ in 0..count {
        if !pop_as(shape, form) {
            return false;
        }
    }
    true
}

pub(crate) fn list(
    tables: &Tables,
    forms: &Forms,
    place: usize,
    mut shape: Shape,
    count: u32,
) -> Result<Leads, Stuck>
    requires { place + 1 < 2 ^ 64 }
    ensures { Tells tables.now forms.now result (flow tables.now [] (instr.List count) place) shape }
{
    let Some(&element) = shape.operands.top() else {
        return Err(Stuck::Bad);
    };
    if count == 0 {
        return Err(Stuck::Bad);
    }
    if !pop_same(&mut shape, element, count) {
        return Err(Stuck::Bad);
    }
    let form = forms.find(Form::Many(element))?;
    Ok(push(place, shape, form)?)
}

/// The first type of a row and the others, where there are some.
fn parted(forms: &Forms, row: u32) -> Result<Option<(u32, u32)>, AllocError>
    ensures { IfOk result (IsParted forms.now row) }
{
    match forms.get(row)? {
        Form::More(first, others) => Ok(Some((first, others))),
        Form::Last => Ok(None),
        _ => Err(AllocError),
    }
}

/// The type at an index of a row.
fn at(tables: &Tables, forms: &Forms, row: u32, index: u32) -> Result<Option<u32>, AllocError>
    ensures { IfOk result (IsInRow tables.now forms.now row index) }
{
    let mut rest = row;
    for _ in 0..index {
        let Some((_, others)) = parted(forms, rest)? else {
            return Ok(None);
        };
        rest = others;
    }
    match parted(forms, rest)? {
        Some((first, _)) => Ok(Some(first)),
        None => Ok(None),
    }
}

pub(crate) fn field(
    tables: &Tables,
    forms: &Forms,
    place: usize,
    mut shape: Shape,
    field: u32,
) -> Result<Leads, Stuck>
    requires { place + 1 < 2 ^ 64 }
    ensures { Tells tables.now forms.now result (flow tables.now [] (instr.Field field) place) shape }
{
    let Some(whole) = shape.operands.pop() else {
        return Err(Stuck::Bad);
    };
    let Form::Fields(row) = forms.get(whole)? else {
        return Err(Stuck::Bad);
    };
    let form = at(tables, forms, row, field)?;
    give(place, shape, form)
}

/// The type of a case, and that of its content where it has one.
#[derive(Clone, Copy)]
pub(crate) struct CaseForm {
    whole: u32,
    content: Option<u32>,
}

/// The type of a content, where there is one.
fn content_form(
    decls: &Decls,
    forms: &Forms,
    content: &Option<Ty>,
) -> Result<Option<u32>, AllocError>
    requires { IfSome content.now (IsLow decls.now) }
    ensures { IfOk result (λ form. StandsIn decls.now forms.now form (option_map (form_of decls.now) content.now)) }
{
    match content {
        Some(content) => Ok(Some(forms.of_ty(decls, content)?)),
        None => Ok(None),
    }
}

fn case_form(tables: &Tables, forms: &Forms, case: u32) -> Result<Option<CaseForm>, AllocError>
    ensures { IfOk result (IsCaseOf tables.now forms.now case) }
{
    let Some(place) = tables.cases.get(case as usize) else {
        return Ok(None);
    };
    let decls = tables.decls.get();
    let Some(enumeration) = decls.enumerations.get(place.enumeration as usize) else {
        return Ok(None);
    };
    let Some(case) = enumeration.cases.get(place.case as usize) else {
        return Ok(None);
    };
    let whole = forms.find(Form::OneOf(place.enumeration))?;
    let content = content_form(decls, forms, &case.content)?;
    Ok(Some(CaseForm { whole, content }))
}

pub(crate) fn tag(
    tables: &Tables,
    forms: &Forms,
    place: usize,
    mut shape: Shape,
    case: u32,
) -> Result<Leads, Stuck>
    requires { place + 1 < 2 ^ 64 }
    ensures { Tells tables.now forms.now result (flow tables.now [] (instr.Tag case) place) shape }
{
    let Some(case) = case_form(tables, forms, case)? else {
        return Err(Stuck::Bad);
    };
    let Some(content) = case.content else {
        return Err(Stuck::Bad);
    };
    if !pop_as(&mut shape, content) {
        return Err(Stuck::Bad);
    }
    Ok(push(place, shape, case.whole)?)
}

pub(crate) fn tag_none(
    tables: &Tables,
    forms: &Forms,
    place: usize,
    shape: Shape,
    case: u32,
) -> Result<Leads, Stuck>
    requires { place + 1 < 2 ^ 64 }
    ensures { Tells tables.now forms.now result (flow tables.now [] (instr.TagNone case) place) shape }
{
    let Some(case) = case_form(tables, forms, case)? else {
        return Err(Stuck::Bad);
    };
    if case.content.is_some() {
        return Err(Stuck::Bad);
    }
    Ok(push(place, shape, case.whole)?)
}

pub(crate) fn is_case(
    tables: &Tables,
    forms: &Forms,
    place: usize,
    mut shape: Shape,
    case: u32,
) -> Result<Leads, Stuck>
    requires { place + 1 < 2 ^ 64 }
    ensures { Tells tables.now forms.now result (flow tables.now [] (instr.IsCase case) place) shape }
{
    let Some(case) = tables.cases.get(case as usize) else {
        return Err(Stuck::Bad);
    };
    let whole = forms.find(Form::OneOf(case.enumeration))?;
    if !pop_as(&mut shape, whole) {
        return Err(Stuck::Bad);
    }
    let truth = forms.find(Form::Truth)?;
    Ok(push(place, shape, truth)?)
}

/// The case for which the instruction at a place asks.
fn case_asked(code: &[Instr], place: usize) -> Option<u32>
    ensures { result ≡ case_asked (slice_get code.now place) }
{
    match code.get(place) {
        Some(Instr::IsCase(case)) => Some(*case),
        _ => None,
    }
}

/// The content of the case for which the third instruction in front asked.
pub(crate) fn content(
    tables: &Tables,
    code: &[Instr],
    forms: &Forms,
    place: usize,
    mut shape: Shape,
) -> Result<Leads, Stuck>
    requires { place + 1 < 2 ^ 64 }
    ensures { Tells tables.now forms.now result (flow tables.now code.now instr.Content place) shape }
{
    let Some(case) = case_asked(code, place.saturating_sub(3)) else {
        return Err(Stuck::Bad);
    };
    let Some(case) = case_form(tables, forms, case)? else {
        return Err(Stuck::Bad);
    };
    let Some(content) = case.content else {
        return Err(Stuck::Bad);
    };
    if !pop_as(&mut shape, case.whole) {
        return Err(Stuck::Bad);
    }
    Ok(push(place, shape, content)?)
}
