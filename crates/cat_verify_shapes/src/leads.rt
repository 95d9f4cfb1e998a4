// Where an instruction leads, and what shapes are asked for.
ghost use Rattle.std.specs.Prelude.{◌≡◌, ◌<◌, ◌+◌, ◌^◌, ◌∷◌, IfOk};
ghost use Rattle.cat_verify_shapes.specs.declared.leads.Stuck.TheVariants.{Memory};
ghost use Rattle.cat_verify_shapes.specs.declared.leads.Leads.TheVariants.{One, Two};
ghost use Rattle.cat_verify_shapes.specs.inside.Taking.{Takes, own_frames, own_pending};
ghost use Rattle.cat_verify_shapes.specs.inside.Told.{GivesOne};

use crate::shape::Shape;
use std::alloc::{AllocError, Global};

/// Why no shape follows.
#[derive(Clone, Copy)]
pub(crate) enum Stuck {
    Bad,
    Memory,
}

impl From<AllocError> for Stuck {
    ghost from_gives = { λ _ e. e ≡ Memory };

    fn from(_: AllocError) -> Self {
        Stuck::Memory
    }
}

/// Places, each with the shape that is left there.
#[derive(Drop)]
pub(crate) enum Leads {
    Nowhere,
    One(usize, Shape),
    Two(usize, Shape, usize, Shape),
}

/// To the next instruction, with a type on top.
#[inline(always)]
pub(crate) fn push(place: usize, mut shape: Shape, form: u32) -> Result<Leads, AllocError>
    requires { place + 1 < 2 ^ 64 }
    ensures { IfOk result (λ leads. leads ≡ One (place + 1) (record shape { operands = form ∷ shape.operands })) }
{
    shape.operands.push(form)?;
    Ok(Leads::One(place + 1, shape))
}

/// To the next instruction, with a type on top, where there is one.
#[inline(always)]
pub(crate) fn give(place: usize, shape: Shape, form: Option<u32>) -> Result<Leads, Stuck>
    requires { place + 1 < 2 ^ 64 }
    ensures { GivesOne place shape form result }
{
    match form {
        Some(form) => Ok(push(place, shape, form)?),
        None => Err(Stuck::Bad),
    }
}

/// To the next instruction and to another place, with the same shape.
#[inline(always)]
pub(crate) fn both(
    alloc: Global,
    place: usize,
    shape: Shape,
    other: u32,
) -> Result<Leads, AllocError>
    requires { place + 1 < 2 ^ 64 }
    ensures { IfOk result (λ leads. leads ≡ Two (place + 1) shape other shape) }
{
    let copy = shape.copy(alloc)?;
    Ok(Leads::Two(place + 1, shape, other as usize, copy))
}

/// Pops an operand of a type, where it is on top.
#[inline(always)]
pub(crate) fn pop_as(shape: &mut Shape, form: u32) -> bool
    ensures { Takes shape.old shape.new form result }
{
    match shape.operands.pop() {
        Some(top) => top == form,
        None => false,
    }
}

/// How many default frames were made inside the innermost loop.
pub(crate) fn own_frames(shape: &Shape) -> usize
    ensures { result ≡ own_frames shape.now }
{
    let below = match shape.loops.top() {
        Some(innermost) => innermost.frames,
        None => 0,
    };
    shape.defaults.len().saturating_sub(below)
}

/// How many pending frames were made inside the innermost loop.
pub(crate) fn own_pending(shape: &Shape) -> usize
    ensures { result ≡ own_pending shape.now }
{
    let below = match shape.loops.top() {
        Some(innermost) => innermost.pending,
        None => 0,
    };
    shape.pending.len().saturating_sub(below)
}
