// What instructions of loops lead to.
ghost use Rattle.std.specs.Prelude.{◌≡◌, ◌<◌, ◌+◌, ◌^◌, [], IfOk, IsTrue};
ghost use Rattle.cat_code.specs.declared.instr.Instr.TheVariants as instr;
ghost use Rattle.std.specs.List.{list_all};
ghost use Rattle.cat_code.specs.Flow.{flow};
ghost use Rattle.cat_code.specs.Valid.{constant_is_sound};
ghost use Rattle.cat_verify_shapes.specs.declared.leads.Leads.TheVariants.{One};
ghost use Rattle.cat_verify_shapes.specs.inside.Told.{Tells};
ghost use Rattle.cat_verify_shapes.specs.inside.Loops.{Ends, IsCollected, PopsList, collected_in, with_loop};

use crate::forms::{Form, Forms};
use crate::leads::{Leads, Stuck, push};
use crate::lookups::constant_form;
use crate::shape::{LoopShape, Shape};
use cat_code::Tables;
use std::alloc::AllocError;

/// Pops a list: the type of its elements.
fn pop_list(tables: &Tables, forms: &Forms, shape: &mut Shape) -> Result<Option<u32>, AllocError>
    ensures { IfOk result (PopsList tables.now forms.now shape.old shape.new) }
{
    let Some(whole) = shape.operands.pop() else {
        return Ok(None);
    };
    let entry = forms.get(whole)?;
    let Form::Many(element) = entry else {
        return Ok(None);
    };
    Ok(Some(element))
}

fn begin(
    place: usize,
    mut shape: Shape,
    element: u32,
    collected: Option<u32>,
) -> Result<Leads, AllocError>
    requires { place + 1 < 2 ^ 64 }
    ensures { IfOk result (λ leads. leads ≡ One (place + 1) (with_loop place element collected shape)) }
{
    let frames = shape.defaults.len();
    let pending = shape.pending.len();
    shape.loops.push(LoopShape {
        begun: place,
        element,
        collected,
        frames,
        pending,
    })?;
    Ok(Leads::One(place + 1, shape))
}

pub(crate) fn length(
    tables: &Tables,
    forms: &Forms,
    place: usize,
    mut shape: Shape,
) -> Result<Leads, Stuck>
    requires { place + 1 < 2 ^ 64 }
    ensures { Tells tables.now forms.now result (flow tables.now [] instr.Length place) shape }
{
    let Some(_) = pop_list(tables, forms, &mut shape)? else {
        return Err(Stuck::Bad);
    };
    let whole = forms.find(Form::Whole)?;
    Ok(push(place, shape, whole)?)
}

pub(crate) fn iter(
    tables: &Tables,
    forms: &Forms,
    place: usize,
    mut shape: Shape,
) -> Result<Leads, Stuck>
    requires { place + 1 < 2 ^ 64 }
    ensures { Tells tables.now forms.now result (flow tables.now [] instr.Iter place) shape }
{
    let Some(element) = pop_list(tables, forms, &mut shape)? else {
        return Err(Stuck::Bad);
    };
    Ok(begin(place, shape, element, None)?)
}

/// The type of the elements of a constant that is a list.
fn collected_form(tables: &Tables, forms: &Forms, constant: u32) -> Result<Option<u32>, AllocError>
    requires { IsTrue (list_all (constant_is_sound tables.now.decls) tables.now.constants) }
    ensures { IfOk result (IsCollected tables.now forms.now constant) }
{
    let Some(whole) = constant_form(tables, forms, constant)? else {
        return Ok(None);
    };
    let entry = forms.get(whole)?;
    let Form::Many(element) = entry else {
        return Ok(None);
    };
    Ok(Some(element))
}

pub(crate) fn iter_list(
    tables: &Tables,
    forms: &Forms,
    place: usize,
    mut shape: Shape,
    constant: u32,
) -> Result<Leads, Stuck>
    requires constants { IsTrue (list_all (constant_is_sound tables.now.decls) tables.now.constants) }
    requires within { place + 1 < 2 ^ 64 }
    ensures { Tells tables.now forms.now result (flow tables.now [] (instr.IterList constant) place) shape }
{
    let Some(element) = pop_list(tables, forms, &mut shape)? else {
        return Err(Stuck::Bad);
    };
    let Some(collected) = collected_form(tables, forms, constant)? else {
        return Err(Stuck::Bad);
    };
    Ok(begin(place, shape, element, Some(collected))?)
}

/// What a loop leaves behind.
fn ended(
    tables: &Tables,
    forms: &Forms,
    mut shape: Shape,
    collected: Option<u32>,
) -> Result<Shape, AllocError>
    ensures { IfOk result (Ends tables.now forms.now shape collected) }
{
    let Some(collected) = collected else {
        return Ok(shape);
    };
    let list = forms.find(Form::Many(collected))?;
    shape.operands.push(list)?;
    Ok(shape)
}

pub(crate) fn next(
    tables: &Tables,
    forms: &Forms,
    place: usize,
    shape: Shape,
    other: u32,
) -> Result<Leads, Stuck>
    requires { place + 1 < 2 ^ 64 }
    ensures { Tells tables.now forms.now result (flow tables.now [] (instr.Next other) place) shape }
{
    let mut outside = shape.copy(forms.alloc)?;
    let Some(innermost) = outside.loops.pop() else {
        return Err(Stuck::Bad);
    };
    if place == 0 {
        return Err(Stuck::Bad);
    }
    if innermost.begun != place - 1 {
        return Err(Stuck::Bad);
    }
    let outside = ended(tables, forms, outside, innermost.collected)?;
    let mut turn = shape;
    turn.operands.push(innermost.element)?;
    Ok(Leads::Two(place + 1, turn, other as usize, outside))
}

/// What the innermost loop collects.
pub(crate) fn collected_in(shape: &Shape) -> Option<u32>
    ensures { result ≡ collected_in shape.now.loops }
{
    match shape.loops.top() {
        Some(innermost) => innermost.collected,
        None => None,
    }
}

pub(crate) fn collect(
    tables: &Tables,
    forms: &Forms,
    place: usize,
    mut shape: Shape,
) -> Result<Leads, Stuck>
    requires { place + 1 < 2 ^ 64 }
    ensures { Tells tables.now forms.now result (flow tables.now [] instr.Collect place) shape }
{
    let Some(form) = shape.operands.pop() else {
        return Err(Stuck::Bad);
    };
    let Some(collected) = collected_in(&shape) else {
        return Err(Stuck::Bad);
    };
    if form != collected {
        return Err(Stuck::Bad);
    }
    Ok(Leads::One(place + 1, shape))
}

pub(crate) fn leave(
    tables: &Tables,
    forms: &Forms,
    place: usize,
    mut shape: Shape,
) -> Result<Leads, Stuck>
    requires { place + 1 < 2 ^ 64 }
    ensures { Tells tables.now forms.now result (flow tables.now [] instr.Leave place) shape }
{
    let Some(_) = shape.loops.pop() else {
        return Err(Stuck::Bad);
    };
    Ok(Leads::One(place + 1, shape))
}
