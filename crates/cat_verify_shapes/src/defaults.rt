// What instructions of default frames lead to.
ghost use Rattle.std.specs.Prelude.{◌≡◌, ◌<◌, ◌+◌, ◌^◌, [], IfOk};
ghost use Rattle.cat_verify_shapes.specs.declared.leads.Leads.TheVariants.{One};
ghost use Rattle.cat_verify_shapes.specs.inside.Taking.{with_frame};
ghost use Rattle.cat_code.specs.declared.instr.Instr.TheVariants as instr;
ghost use Rattle.cat_code.specs.Flow.{flow};
ghost use Rattle.cat_verify_shapes.specs.inside.Told.{Tells};

use crate::forms::Forms;
use crate::leads::{Leads, Stuck, both, own_frames, pop_as};
use crate::lookups::target_form;
use crate::shape::{FrameShape, Shape};
use cat_code::Tables;
use std::alloc::AllocError;

/// To the next instruction, with this frame on top, where `checked` tells whether it was checked.
fn with_frame(
    place: usize,
    mut shape: Shape,
    frame: FrameShape,
    checked: bool,
) -> Result<Leads, AllocError>
    requires { place + 1 < 2 ^ 64 }
    ensures { IfOk result (λ leads. leads ≡ One (place + 1) (with_frame frame checked shape)) }
{
    shape.defaults.push(FrameShape {
        begun: frame.begun,
        holds: frame.holds,
        checked,
    })?;
    Ok(Leads::One(place + 1, shape))
}

pub(crate) fn begin(
    tables: &Tables,
    forms: &Forms,
    place: usize,
    shape: Shape,
    target: u32,
) -> Result<Leads, Stuck>
    requires { place + 1 < 2 ^ 64 }
    ensures { Tells tables.now forms.now result (flow tables.now [] (instr.Begin target) place) shape }
{
    let Some(holds) = target_form(tables, forms, target)? else {
        return Err(Stuck::Bad);
    };
    let frame = FrameShape {
        begun: place,
        holds,
        checked: false,
    };
    Ok(with_frame(place, shape, frame, false)?)
}

pub(crate) fn hold(
    tables: &Tables,
    forms: &Forms,
    place: usize,
    mut shape: Shape,
    definition: u32,
) -> Result<Leads, Stuck>
    requires { place + 1 < 2 ^ 64 }
    ensures { Tells tables.now forms.now result (flow tables.now [] (instr.Hold definition) place) shape }
{
    if definition as usize >= tables.definitions.len() {
        return Err(Stuck::Bad);
    }
    if own_frames(&shape) < 1 {
        return Err(Stuck::Bad);
    }
    let Some(frame) = shape.defaults.pop() else {
        return Err(Stuck::Bad);
    };
    if !pop_as(&mut shape, frame.holds) {
        return Err(Stuck::Bad);
    }
    Ok(with_frame(place, shape, frame, false)?)
}

pub(crate) fn merge(
    tables: &Tables,
    forms: &Forms,
    place: usize,
    mut shape: Shape,
) -> Result<Leads, Stuck>
    requires { place + 1 < 2 ^ 64 }
    ensures { Tells tables.now forms.now result (flow tables.now [] instr.Merge place) shape }
{
    if own_frames(&shape) < 2 {
        return Err(Stuck::Bad);
    }
    let Some(top) = shape.defaults.pop() else {
        return Err(Stuck::Bad);
    };
    let Some(below) = shape.defaults.pop() else {
        return Err(Stuck::Bad);
    };
    if !top.checked {
        return Err(Stuck::Bad);
    }
    if top.holds != below.holds {
        return Err(Stuck::Bad);
    }
    Ok(with_frame(place, shape, below, false)?)
}

pub(crate) fn check(
    tables: &Tables,
    forms: &Forms,
    place: usize,
    mut shape: Shape,
    target: u32,
) -> Result<Leads, Stuck>
    requires { place + 1 < 2 ^ 64 }
    ensures { Tells tables.now forms.now result (flow tables.now [] (instr.Check target) place) shape }
{
    if target as usize >= tables.targets.len() {
        return Err(Stuck::Bad);
    }
    if own_frames(&shape) < 1 {
        return Err(Stuck::Bad);
    }
    let Some(frame) = shape.defaults.pop() else {
        return Err(Stuck::Bad);
    };
    Ok(with_frame(place, shape, frame, true)?)
}

pub(crate) fn held(
    tables: &Tables,
    forms: &Forms,
    place: usize,
    shape: Shape,
    other: u32,
) -> Result<Leads, Stuck>
    requires { place + 1 < 2 ^ 64 }
    ensures { Tells tables.now forms.now result (flow tables.now [] (instr.Held other) place) shape }
{
    if shape.defaults.len() == 0 {
        return Err(Stuck::Bad);
    }
    Ok(both(forms.alloc, place, shape, other)?)
}

pub(crate) fn take(
    tables: &Tables,
    forms: &Forms,
    place: usize,
    mut shape: Shape,
    other: u32,
) -> Result<Leads, Stuck>
    requires { place + 1 < 2 ^ 64 }
    ensures { Tells tables.now forms.now result (flow tables.now [] (instr.Take other) place) shape }
{
    if own_frames(&shape) < 1 {
        return Err(Stuck::Bad);
    }
    let Some(frame) = shape.defaults.pop() else {
        return Err(Stuck::Bad);
    };
    if !frame.checked {
        return Err(Stuck::Bad);
    }
    let without = shape.copy(forms.alloc)?;
    shape.operands.push(frame.holds)?;
    Ok(Leads::Two(place + 1, shape, other as usize, without))
}

pub(crate) fn no_value(
    tables: &Tables,
    forms: &Forms,
    place: usize,
    shape: Shape,
    target: u32,
) -> Result<Leads, Stuck>
    ensures { Tells tables.now forms.now result (flow tables.now [] (instr.NoValue target) place) shape }
{
    if target as usize >= tables.targets.len() {
        return Err(Stuck::Bad);
    }
    Ok(Leads::Nowhere)
}
