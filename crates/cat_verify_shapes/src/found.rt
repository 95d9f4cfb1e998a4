// The shapes that are found so far.
ghost use Rattle.std.specs.Prelude.{◌≡◌, ◌<◌, length, replicate, IfOk};
ghost use Rattle.cat_verify_shapes.specs.declared.found.Spot.TheVariants.{Unmet};
ghost use Rattle.cat_verify_shapes.specs.inside.Looking.{Arriving, ArrivingAll, IsOpened, Meeting};

use crate::alike::{are_alike, common, has_no_fewer};
use crate::leads::{Leads, Stuck};
use crate::shape::Shape;
use cat_code::Instr;
use cat_pos::Boxed;
use std::alloc::{AllocError, Global};
use std::mem::replace;

/// What is known of a place: no shape yet, one that less may still be known of, that of a turn, which stays, or none
/// any more, since the place was looked at or passed. There is one for each instruction, and few have a shape at once.
#[derive(Drop)]
pub(crate) enum Spot {
    Unmet,
    Open(Boxed<Shape>),
    Turn(Boxed<Shape>),
    Done,
}

/// A shape that leads to a place: what is known there from now on.
#[inline(always)]
fn met(alloc: Global, spot: Spot, shape: Shape) -> Result<Spot, Stuck>
    ensures { Meeting spot shape result }
{
    match spot {
        Spot::Unmet => Ok(Spot::Open(Boxed::new(alloc, shape)?)),
        Spot::Open(known) => {
            if !are_alike(known.get(), &shape) {
                return Err(Stuck::Bad);
            }
            let known = common(alloc, known.into_inner(), &shape)?;
            Ok(Spot::Open(Boxed::new(alloc, known)?))
        }
        Spot::Turn(turn) => {
            if !are_alike(&shape, turn.get()) {
                return Err(Stuck::Bad);
            }
            if !has_no_fewer(&shape, turn.get()) {
                return Err(Stuck::Bad);
            }
            Ok(Spot::Turn(turn))
        }
        Spot::Done => Err(Stuck::Bad),
    }
}

/// A shape leads to a place.
#[inline(always)]
pub(crate) fn arrive(
    alloc: Global,
    found: &mut Vec<Spot>,
    place: usize,
    shape: Shape,
) -> Result<(), Stuck>
    ensures { Arriving found.old.items found.new.items place shape result }
{
    if place >= found.len() {
        return Err(Stuck::Bad);
    }
    let spot = replace(&mut found[place], Spot::Done);
    found[place] = met(alloc, spot, shape)?;
    Ok(())
}

/// An instruction leads to places.
#[inline(always)]
pub(crate) fn arrive_all(alloc: Global, found: &mut Vec<Spot>, leads: Leads) -> Result<(), Stuck>
    ensures { ArrivingAll found.old.items found.new.items leads result }
{
    match leads {
        Leads::Nowhere => Ok(()),
        Leads::One(place, shape) => arrive(alloc, found, place, shape),
        Leads::Two(place, shape, other, second) => {
            arrive(alloc, found, place, shape)?;
            arrive(alloc, found, other, second)
        }
    }
}

/// The shape of a place that wasn't looked at. That of a `next` stays, since its turns come back to it.
#[inline(always)]
pub(crate) fn open(
    alloc: Global,
    found: &mut Vec<Spot>,
    place: usize,
    instr: Instr,
) -> Result<Option<Shape>, AllocError>
    requires { place < length found.old.items }
    ensures { IfOk result (IsOpened found.old.items found.new.items place instr) }
{
    match replace(&mut found[place], Spot::Done) {
        Spot::Open(shape) => {
            let Instr::Next(_) = instr else {
                return Ok(Some(shape.into_inner()));
            };
            let turn = shape.get().copy(alloc)?;
            found[place] = Spot::Turn(shape);
            Ok(Some(turn))
        }
        Spot::Turn(turn) => {
            found[place] = Spot::Turn(turn);
            Ok(None)
        }
        Spot::Unmet | Spot::Done => Ok(None),
    }
}

/// So many places without a shape.
pub(crate) fn unmet(alloc: Global, count: usize) -> Result<Vec<Spot>, AllocError>
    ensures { IfOk result (λ found. found.items ≡ replicate count Unmet) }
{
    let mut found = Vec::with_capacity(alloc, count)?;
    for _ in 0..count {
        if found.push(Spot::Unmet).is_err() {
            return Err(AllocError);
        }
    }
    Ok(found)
}
