// One step of the machine. Each function that tells where a step leads is inlined into the loop over the steps, so that
// the loop's state stays in registers: were one of them called, every step would write to memory where it leads.
ghost use Rattle.std.specs.Prelude.{◌≡◌, ◌≢◌, ◌<◌, ◌+◌, ◌^◌, OnOk};
ghost use Rattle.cat_code.specs.States.{stuck};
ghost use Rattle.cat_code.specs.Machine.{act};
ghost use Rattle.cat_code.specs.Runs.{step};
ghost use Rattle.cat_machine.specs.States.{state_at};
ghost use Rattle.cat_machine.specs.Steps.{OneMore, Tells};
ghost use Rattle.cat_machine.specs.inside.Machines.{IsMachine};

mod calling;
mod defaults;
mod frequent;
mod looping;
mod making;
mod moving;
mod operating;

use crate::machine::{Machine, Stepped};
use cat_code::{Code, Instr};
use std::alloc::AllocError;

/// What an instruction does.
#[inline(always)]
fn act(code: &Code, m: &mut Machine, place: usize, instr: Instr) -> Result<Stepped, AllocError>
    requires machine { IsMachine code.now.tables m.old }
    requires place { place + 1 < 2 ^ 64 }
    requires going { act code.now.tables instr (state_at code.now.tables place m.old) ≢ stuck }
    ensures told { Tells code.now.tables result
        (act code.now.tables instr (state_at code.now.tables place m.old)) m.old m.new }
    ensures machine { OnOk result (IsMachine code.now.tables m.new) }
    ensures pool { OneMore m.old.pool m.new.pool }
{
    match instr {
        Instr::Const(k) => moving::constant(code, m, place, k),
        Instr::Slot(i) => moving::slot(code, m, place, i),
        Instr::Local(i) => moving::local(code, m, place, i),
        Instr::Store(i) => moving::store(code, m, place, i),
        Instr::Bind => moving::bind(code, m, place),
        Instr::Drop(n) => moving::unbind(code, m, place, n),
        Instr::Given(i, t) => moving::given(code, m, place, i, t),
        Instr::Jump(t) => Ok(Stepped::To(t as usize)),
        Instr::JumpFalse(t) => moving::jump_false(code, m, place, t),
        Instr::Op(n, r, p) => operating::operator(code, m, place, n, r, p),
        Instr::Pack(n) => making::pack(code, m, place, n),
        Instr::List(n) => making::list(code, m, place, n),
        Instr::Field(i) => making::field(code, m, place, i),
        Instr::Tag(c) => making::tag(code, m, place, c),
        Instr::TagNone(c) => making::tag_none(code, m, place, c),
        Instr::IsCase(c) => making::is_case(code, m, place, c),
        Instr::Content => making::content(code, m, place),
        Instr::Length => making::length(code, m, place),
        Instr::Iter => looping::iter(code, m, place),
        Instr::IterList(k) => looping::iter_list(code, m, place, k),
        Instr::Next(t) => looping::next(code, m, place, t),
        Instr::Collect => looping::collect(code, m, place),
        Instr::Leave => looping::leave(code, m, place),
        Instr::Call(f, n) => calling::call(code, m, place, f, n),
        Instr::Scope(n) => calling::scope(code, m, place, n),
        Instr::Pass(i) => calling::pass(code, m, place, i),
        Instr::Enter => calling::enter(code, m, place),
        Instr::Return => calling::leave(code, m, place),
        Instr::Begin(v) => defaults::begin(code, m, place, v),
        Instr::Hold(d) => defaults::hold(code, m, place, d),
        Instr::Merge => defaults::merge(code, m, place),
        Instr::Check(v) => defaults::check(code, m, place, v),
        Instr::Held(t) => defaults::held(code, m, place, t),
        Instr::Take(t) => defaults::take(code, m, place, t),
        Instr::NoValue(v) => defaults::no_value(code, m, place, v),
        Instr::Assert(p) => operating::assertion(code, m, place, p),
    }
}

/// One step from a place.
#[inline(always)]
pub fn step(code: &Code, m: &mut Machine, place: usize) -> Result<Stepped, AllocError>
    requires machine { IsMachine code.now.tables m.old }
    requires going { step code.now.tables code.now.instructions (state_at code.now.tables place m.old) ≢ stuck }
    ensures told { Tells code.now.tables result
        (step code.now.tables code.now.instructions (state_at code.now.tables place m.old)) m.old m.new }
    ensures machine { OnOk result (IsMachine code.now.tables m.new) }
    ensures pool { OneMore m.old.pool m.new.pool }
{
    let instr = code.instructions.as_slice()[place];
    act(code, m, place, instr)
}
