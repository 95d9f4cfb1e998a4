// What instructions of values, slots and jumps lead to.
ghost use Rattle.std.specs.Prelude.{◌<◌, ◌+◌, ◌^◌, [], IsTrue};
ghost use Rattle.cat_code.specs.declared.instr.Instr.TheVariants as instr;
ghost use Rattle.std.specs.List.{list_all};
ghost use Rattle.cat_code.specs.Flow.{flow};
ghost use Rattle.cat_code.specs.Valid.{constant_is_sound};
ghost use Rattle.cat_verify_shapes.specs.inside.Told.{Tells};

use crate::forms::{Form, Forms};
use crate::leads::{Leads, Stuck, both, give, pop_as};
use crate::lookups::{constant_form, slot_form};
use crate::shape::{Shape, first_locals, is_so, mark};
use cat_code::Tables;

#[inline(always)]
pub(crate) fn constant(
    tables: &Tables,
    forms: &Forms,
    place: usize,
    shape: Shape,
    constant: u32,
) -> Result<Leads, Stuck>
    requires constants { IsTrue (list_all (constant_is_sound tables.now.decls) tables.now.constants) }
    requires within { place + 1 < 2 ^ 64 }
    ensures { Tells tables.now forms.now result (flow tables.now [] (instr.Const constant) place) shape }
{
    let form = constant_form(tables, forms, constant)?;
    give(place, shape, form)
}

#[inline(always)]
pub(crate) fn slot(
    tables: &Tables,
    forms: &Forms,
    place: usize,
    shape: Shape,
    slot: u32,
) -> Result<Leads, Stuck>
    requires { place + 1 < 2 ^ 64 }
    ensures { Tells tables.now forms.now result (flow tables.now [] (instr.Slot slot) place) shape }
{
    if !is_so(&shape.filled, slot as usize) {
        return Err(Stuck::Bad);
    }
    let form = slot_form(tables, forms, shape.owner.scope, slot)?;
    give(place, shape, form)
}

pub(crate) fn local(
    tables: &Tables,
    forms: &Forms,
    place: usize,
    shape: Shape,
    local: u32,
) -> Result<Leads, Stuck>
    requires { place + 1 < 2 ^ 64 }
    ensures { Tells tables.now forms.now result (flow tables.now [] (instr.Local local) place) shape }
{
    let form = shape.locals.get(local as usize).copied();
    give(place, shape, form)
}

#[inline(always)]
pub(crate) fn store(
    tables: &Tables,
    forms: &Forms,
    place: usize,
    mut shape: Shape,
    slot: u32,
) -> Result<Leads, Stuck>
    requires { place + 1 < 2 ^ 64 }
    ensures { Tells tables.now forms.now result (flow tables.now [] (instr.Store slot) place) shape }
{
    if shape.owner.function.is_some() {
        return Err(Stuck::Bad);
    }
    let Some(form) = slot_form(tables, forms, shape.owner.scope, slot)? else {
        return Err(Stuck::Bad);
    };
    if !pop_as(&mut shape, form) {
        return Err(Stuck::Bad);
    }
    mark(&mut shape.filled, slot as usize);
    Ok(Leads::One(place + 1, shape))
}

pub(crate) fn bind(
    tables: &Tables,
    forms: &Forms,
    place: usize,
    mut shape: Shape,
) -> Result<Leads, Stuck>
    requires { place + 1 < 2 ^ 64 }
    ensures { Tells tables.now forms.now result (flow tables.now [] instr.Bind place) shape }
{
    let Some(form) = shape.operands.pop() else {
        return Err(Stuck::Bad);
    };
    shape.locals.push(form)?;
    Ok(Leads::One(place + 1, shape))
}

pub(crate) fn unbind(
    tables: &Tables,
    forms: &Forms,
    place: usize,
    mut shape: Shape,
    count: u32,
) -> Result<Leads, Stuck>
    requires { place + 1 < 2 ^ 64 }
    ensures { Tells tables.now forms.now result (flow tables.now [] (instr.Drop count) place) shape }
{
    let Some(left) = shape.locals.len().checked_sub(count as usize) else {
        return Err(Stuck::Bad);
    };
    shape.locals = first_locals(forms.alloc, shape.locals.as_slice(), left)?;
    Ok(Leads::One(place + 1, shape))
}

pub(crate) fn given(
    tables: &Tables,
    forms: &Forms,
    place: usize,
    shape: Shape,
    slot: u32,
    other: u32,
) -> Result<Leads, Stuck>
    requires { place + 1 < 2 ^ 64 }
    ensures { Tells tables.now forms.now result (flow tables.now [] (instr.Given slot other) place) shape }
{
    if slot as usize >= shape.filled.len() {
        return Err(Stuck::Bad);
    }
    let mut filled = shape.copy(forms.alloc)?;
    mark(&mut filled.filled, slot as usize);
    Ok(Leads::Two(place + 1, shape, other as usize, filled))
}

#[inline(always)]
pub(crate) fn jump_false(
    tables: &Tables,
    forms: &Forms,
    place: usize,
    mut shape: Shape,
    other: u32,
) -> Result<Leads, Stuck>
    requires { place + 1 < 2 ^ 64 }
    ensures { Tells tables.now forms.now result (flow tables.now [] (instr.JumpFalse other) place) shape }
{
    let truth = forms.find(Form::Truth)?;
    if !pop_as(&mut shape, truth) {
        return Err(Stuck::Bad);
    }
    Ok(both(forms.alloc, place, shape, other)?)
}

pub(crate) fn assert(
    tables: &Tables,
    forms: &Forms,
    place: usize,
    mut shape: Shape,
    position: u32,
) -> Result<Leads, Stuck>
    requires { place + 1 < 2 ^ 64 }
    ensures { Tells tables.now forms.now result (flow tables.now [] (instr.Assert position) place) shape }
{
    if position as usize >= tables.positions.len() {
        return Err(Stuck::Bad);
    }
    let truth = forms.find(Form::Truth)?;
    if !pop_as(&mut shape, truth) {
        return Err(Stuck::Bad);
    }
    Ok(Leads::One(place + 1, shape))
}
