// Shapes that are alike, and what two of them have in common.
ghost use Rattle.std.specs.Prelude.{◌≡◌, ◌↔◌, IsTrue, IfOk, length, reverse};
ghost use Rattle.cat_code.specs.Shapes.{AreFewer};
ghost use Rattle.cat_verify_shapes.specs.inside.Alike.{AreAlike, AreAlikeFrames, AreAlikePending, AreChecked};
ghost use Rattle.cat_verify_shapes.specs.inside.Alike.{ArePassed};
ghost use Rattle.cat_verify_shapes.specs.inside.Alike.{common, common_frame, common_pending, HasNoFewer};
ghost use Rattle.cat_verify_shapes.specs.inside.Zipped.{both, zipped};

use crate::Owner;
use crate::pile::Pile;
use crate::shape::{Flags, FrameShape, FrameShapes, LoopShape, PendingShape, PendingShapes, Shape};
use cat_pos::List;
use std::alloc::{AllocError, Global};

fn same_owner(left: Owner, right: Owner) -> bool
    ensures { IsTrue result ↔ (left ≡ right) }
{
    left == right
}

fn same_numbers(left: &[u32], right: &[u32]) -> bool
    ensures { IsTrue result ↔ (left.now ≡ right.now) }
{
    left == right
}

fn same_loops(left: &[LoopShape], right: &[LoopShape]) -> bool
    ensures { IsTrue result ↔ (left.now ≡ right.now) }
{
    left == right
}

/// Whether frames began at the same places, and hold the same types.
fn same_frames(left: &[FrameShape], right: &[FrameShape]) -> bool
    ensures { IsTrue result ↔ AreAlikeFrames left.now right.now }
{
    if left.len() != right.len() {
        return false;
    }
    for (at, frame) in left.iter().enumerate() {
        if frame.begun != right[at].begun {
            return false;
        }
        if frame.holds != right[at].holds {
            return false;
        }
    }
    true
}

/// Whether pending frames are of the same scopes.
fn same_pending(left: &[PendingShape], right: &[PendingShape]) -> bool
    ensures { IsTrue result ↔ AreAlikePending left.now right.now }
{
    if left.len() != right.len() {
        return false;
    }
    for (at, frame) in left.iter().enumerate() {
        if frame.scope != right[at].scope {
            return false;
        }
        if frame.passed.len() != right[at].passed.len() {
            return false;
        }
    }
    true
}

/// Whether two shapes have the same types, default frames, loops and pending frames.
pub(crate) fn are_alike(left: &Shape, right: &Shape) -> bool
    ensures { IsTrue result ↔ AreAlike left.now right.now }
{
    if !same_owner(left.owner, right.owner) {
        return false;
    }
    if left.filled.len() != right.filled.len() {
        return false;
    }
    if !same_numbers(left.operands.from_below(), right.operands.from_below()) {
        return false;
    }
    if !same_numbers(left.locals.as_slice(), right.locals.as_slice()) {
        return false;
    }
    if !same_loops(left.loops.from_below(), right.loops.from_below()) {
        return false;
    }
    if !same_frames(left.defaults.from_below(), right.defaults.from_below()) {
        return false;
    }
    same_pending(left.pending.from_below(), right.pending.from_below())
}

/// Whether each flag of the first list stands in the second one too.
fn are_fewer(flags: &[bool], others: &[bool]) -> bool
    requires { length flags.now ≡ length others.now }
    ensures { IsTrue result ↔ AreFewer flags.now others.now }
{
    for (at, &flag) in flags.iter().enumerate() {
        if flag && !others[at] {
            return false;
        }
    }
    true
}

/// Whether each frame that is checked is checked in the second list too.
fn are_checked(frames: &[FrameShape], others: &[FrameShape]) -> bool
    requires { length frames.now ≡ length others.now }
    ensures { IsTrue result ↔ AreChecked frames.now others.now }
{
    for (at, frame) in frames.iter().enumerate() {
        if frame.checked && !others[at].checked {
            return false;
        }
    }
    true
}

/// Whether what was passed was passed in the second list too.
fn are_passed(pending: &[PendingShape], others: &[PendingShape]) -> bool
    requires { AreAlikePending pending.now others.now }
    ensures { IsTrue result ↔ ArePassed pending.now others.now }
{
    for (at, frame) in pending.iter().enumerate() {
        if !are_fewer(frame.passed.as_slice(), others[at].passed.as_slice()) {
            return false;
        }
    }
    true
}

/// Whether what is left, which is alike, has no fewer filled slots, passed slots and checked frames than a shape.
pub(crate) fn has_no_fewer(left: &Shape, shape: &Shape) -> bool
    requires { AreAlike left.now shape.now }
    ensures { IsTrue result ↔ HasNoFewer left.now shape.now }
{
    if !are_fewer(shape.filled.as_slice(), left.filled.as_slice()) {
        return false;
    }
    if !are_checked(shape.defaults.from_below(), left.defaults.from_below()) {
        return false;
    }
    are_passed(shape.pending.from_below(), left.pending.from_below())
}

/// The flags that stand in both lists.
fn common_flags(alloc: Global, left: &[bool], right: &[bool]) -> Result<Flags, AllocError>
    requires { length left.now ≡ length right.now }
    ensures { IfOk result (λ flags. flags ≡ both left.now right.now) }
{
    let mut flags = List::new(alloc);
    for (at, &flag) in left.iter().enumerate() {
        flags.push(flag && right[at])?;
    }
    Ok(flags)
}

fn common_frames(
    alloc: Global,
    left: &[FrameShape],
    right: &[FrameShape],
) -> Result<FrameShapes, AllocError>
    requires { length left.now ≡ length right.now }
    ensures { IfOk result (λ frames. frames ≡ reverse (zipped common_frame left.now right.now)) }
{
    let mut frames = List::new(alloc);
    for (at, frame) in left.iter().enumerate() {
        frames.push(FrameShape {
            begun: frame.begun,
            holds: frame.holds,
            checked: frame.checked && right[at].checked,
        })?;
    }
    Ok(Pile::from_list(frames))
}

fn common_pending(
    alloc: Global,
    left: &[PendingShape],
    right: &[PendingShape],
) -> Result<PendingShapes, AllocError>
    requires { AreAlikePending left.now right.now }
    ensures { IfOk result (λ pending. pending ≡ reverse (zipped common_pending left.now right.now)) }
{
    let mut pending = List::new(alloc);
    for (at, frame) in left.iter().enumerate() {
        let other = &right[at];
        let passed = common_flags(alloc, frame.passed.as_slice(), other.passed.as_slice())?;
        let scope = frame.scope;
        pending.push(PendingShape { scope, passed })?;
    }
    Ok(Pile::from_list(pending))
}

/// What two shapes that are alike have in common.
pub(crate) fn common(alloc: Global, left: Shape, right: &Shape) -> Result<Shape, AllocError>
    requires { AreAlike left right.now }
    ensures { IfOk result (λ shape. shape ≡ common left right.now) }
{
    let Shape {
        owner,
        operands,
        locals,
        filled,
        defaults,
        loops,
        pending,
    } = left;
    let filled = common_flags(alloc, filled.as_slice(), right.filled.as_slice())?;
    let defaults = common_frames(alloc, defaults.from_below(), right.defaults.from_below())?;
    let pending = common_pending(alloc, pending.from_below(), right.pending.from_below())?;
    Ok(Shape {
        owner,
        operands,
        locals,
        filled,
        defaults,
        loops,
        pending,
    })
}
