// What is known of a state at a place of the code.
ghost use Rattle.std.specs.Prelude.{◌≡◌, [], ◌≤◌, true, length, take, slice_get, slice_set, IfOk};
ghost use Rattle.cat_code.specs.Wanted.{is_so};

use crate::Owner;
use crate::pile::Pile;
use cat_pos::{List, Numbers};
use std::alloc::{AllocError, Global};

/// A default frame: where it began, the type of its values, and whether it was checked since it last took an entry.
#[derive(Clone, Copy)]
pub(crate) struct FrameShape {
    pub begun: usize,
    pub holds: u32,
    pub checked: bool,
}

pub(crate) type FrameShapes = Pile<FrameShape>;

/// A loop: where it began, the type of its elements and of what it collects, and how many default frames and pending
/// frames stood there.
#[derive(Clone, Copy, PartialEq, Eq)]
pub(crate) struct LoopShape {
    pub begun: usize,
    pub element: u32,
    pub collected: Option<u32>,
    pub frames: usize,
    pub pending: usize,
}

pub(crate) type LoopShapes = Pile<LoopShape>;

pub(crate) type Flags = List<bool>;

/// A scope that isn't entered yet, and which of its slots something was passed to.
#[derive(Drop)]
pub(crate) struct PendingShape {
    pub scope: u32,
    pub passed: Flags,
}

pub(crate) type PendingShapes = Pile<PendingShape>;

/// Of operands, default frames, loops and pending frames those that were made since the present frame was entered.
/// Types are numbers.
#[derive(Drop)]
pub(crate) struct Shape {
    pub owner: Owner,
    pub operands: Pile<u32>,
    pub locals: Numbers,
    pub filled: Flags,
    pub defaults: FrameShapes,
    pub loops: LoopShapes,
    pub pending: PendingShapes,
}

fn copy_pending(alloc: Global, pending: &[PendingShape]) -> Result<List<PendingShape>, AllocError>
    ensures { IfOk result (λ copies. copies ≡ pending.now) }
{
    let mut copies = List::new(alloc);
    for frame in pending {
        let passed = List::from_slice(alloc, frame.passed.as_slice())?;
        let scope = frame.scope;
        copies.push(PendingShape { scope, passed })?;
    }
    Ok(copies)
}

impl Shape {
    /// At an entry: these locals and filled slots, and nothing else.
    pub fn entered(alloc: Global, owner: Owner, locals: Numbers, filled: Flags) -> Shape
        ensures { result ≡ record {
          owner = owner;
          operands = [];
          locals = locals;
          filled = filled;
          defaults = [];
          loops = [];
          pending = [];
        } }
    {
        Shape {
            owner,
            operands: Pile::new(alloc),
            locals,
            filled,
            defaults: Pile::new(alloc),
            loops: Pile::new(alloc),
            pending: Pile::new(alloc),
        }
    }

    pub fn copy(&self, alloc: Global) -> Result<Shape, AllocError>
        ensures { IfOk result (λ shape. shape ≡ self.now) }
    {
        let operands = self.operands.copy(alloc)?;
        let locals = List::from_slice(alloc, self.locals.as_slice())?;
        let filled = List::from_slice(alloc, self.filled.as_slice())?;
        let defaults = self.defaults.copy(alloc)?;
        let loops = self.loops.copy(alloc)?;
        let pending = copy_pending(alloc, self.pending.from_below())?;
        Ok(Shape {
            owner: self.owner,
            operands,
            locals,
            filled,
            defaults,
            loops,
            pending: Pile::from_list(pending),
        })
    }
}

/// Marks an entry, where there is one.
pub(crate) fn mark(flags: &mut Flags, at: usize)
    ensures { flags.new ≡ slice_set flags.old at true }
{
    if at < flags.len() {
        flags.set(at, true);
    }
}

/// The first locals.
pub(crate) fn first_locals(
    alloc: Global,
    locals: &[u32],
    count: usize,
) -> Result<Numbers, AllocError>
    requires { count ≤ length locals.now }
    ensures { IfOk result (λ first. first ≡ take count locals.now) }
{
    List::from_slice(alloc, &locals[..count])
}

/// Whether an entry is marked.
pub(crate) fn is_so(flags: &Flags, at: usize) -> bool
    ensures { result ≡ is_so (slice_get flags.now at) }
{
    match flags.get(at) {
        Some(flag) => *flag,
        None => false,
    }
}
