// What instructions do with slots, locals and places.
ghost use Rattle.std.specs.Prelude.{◌≡◌, ◌≢◌, ◌<◌, ◌+◌, ◌^◌, OnOk};
ghost use Rattle.cat_code.specs.States.{stuck};
ghost use Rattle.cat_code.specs.Machine.{act};
ghost use Rattle.cat_code.specs.declared.instr.Instr.TheVariants as instr;
ghost use Rattle.cat_machine.specs.States.{state_at};
ghost use Rattle.cat_machine.specs.Steps.{OneMore, Tells};
ghost use Rattle.cat_machine.specs.inside.Machines.{IsMachine};

use crate::machine::{Machine, Stepped};
use cat_code::Code;
use cat_pool::PoolNode;
use std::alloc::AllocError;

/// Pushes a constant.
#[tactic(auto, using(crate::proofs::Growth::staying))]
pub fn constant(code: &Code, m: &mut Machine, place: usize, k: u32) -> Result<Stepped, AllocError>
    requires machine { IsMachine code.now.tables m.old }
    requires place { place + 1 < 2 ^ 64 }
    requires going { act code.now.tables (instr.Const k) (state_at code.now.tables place m.old) ≢ stuck }
    ensures told { Tells code.now.tables result
        (act code.now.tables (instr.Const k) (state_at code.now.tables place m.old)) m.old m.new }
    ensures machine { OnOk result (IsMachine code.now.tables m.new) }
    ensures pool { OneMore m.old.pool m.new.pool }
{
    let r = *m.constants.at(k as usize);
    m.operands.push(r)?;
    Ok(Stepped::To(place + 1))
}

/// Pushes a slot.
#[tactic(auto, using(crate::proofs::Growth::staying))]
pub fn slot(code: &Code, m: &mut Machine, place: usize, i: u32) -> Result<Stepped, AllocError>
    requires machine { IsMachine code.now.tables m.old }
    requires place { place + 1 < 2 ^ 64 }
    requires going { act code.now.tables (instr.Slot i) (state_at code.now.tables place m.old) ≢ stuck }
    ensures told { Tells code.now.tables result
        (act code.now.tables (instr.Slot i) (state_at code.now.tables place m.old)) m.old m.new }
    ensures machine { OnOk result (IsMachine code.now.tables m.new) }
    ensures pool { OneMore m.old.pool m.new.pool }
{
    let Some(r) = m.slots.items()[i as usize] else {
        unreachable!()
    };
    m.operands.push(r)?;
    Ok(Stepped::To(place + 1))
}

/// Pushes a local.
#[tactic(auto, using(crate::proofs::Growth::staying))]
pub fn local(code: &Code, m: &mut Machine, place: usize, i: u32) -> Result<Stepped, AllocError>
    requires machine { IsMachine code.now.tables m.old }
    requires place { place + 1 < 2 ^ 64 }
    requires going { act code.now.tables (instr.Local i) (state_at code.now.tables place m.old) ≢ stuck }
    ensures told { Tells code.now.tables result
        (act code.now.tables (instr.Local i) (state_at code.now.tables place m.old)) m.old m.new }
    ensures machine { OnOk result (IsMachine code.now.tables m.new) }
    ensures pool { OneMore m.old.pool m.new.pool }
{
    let r = m.locals.items()[i as usize];
    m.operands.push(r)?;
    Ok(Stepped::To(place + 1))
}

/// Pops into a slot.
#[tactic(auto, using(crate::proofs::Growth::staying))]
pub fn store(code: &Code, m: &mut Machine, place: usize, i: u32) -> Result<Stepped, AllocError>
    requires machine { IsMachine code.now.tables m.old }
    requires place { place + 1 < 2 ^ 64 }
    requires going { act code.now.tables (instr.Store i) (state_at code.now.tables place m.old) ≢ stuck }
    ensures told { Tells code.now.tables result
        (act code.now.tables (instr.Store i) (state_at code.now.tables place m.old)) m.old m.new }
    ensures machine { OnOk result (IsMachine code.now.tables m.new) }
    ensures pool { OneMore m.old.pool m.new.pool }
{
    let Some(r) = m.operands.pop() else {
        unreachable!()
    };
    m.slots.set(i as usize, Some(r));
    Ok(Stepped::To(place + 1))
}

/// Pops, and puts the value behind the locals.
#[tactic(auto, using(crate::proofs::Growth::staying))]
pub fn bind(code: &Code, m: &mut Machine, place: usize) -> Result<Stepped, AllocError>
    requires machine { IsMachine code.now.tables m.old }
    requires place { place + 1 < 2 ^ 64 }
    requires going { act code.now.tables instr.Bind (state_at code.now.tables place m.old) ≢ stuck }
    ensures told { Tells code.now.tables result
        (act code.now.tables instr.Bind (state_at code.now.tables place m.old)) m.old m.new }
    ensures machine { OnOk result (IsMachine code.now.tables m.new) }
    ensures pool { OneMore m.old.pool m.new.pool }
{
    let Some(r) = m.operands.pop() else {
        unreachable!()
    };
    m.locals.push(r)?;
    Ok(Stepped::To(place + 1))
}

/// Takes the last n locals off.
#[tactic(auto, using(crate::proofs::Growth::staying))]
pub fn unbind(code: &Code, m: &mut Machine, place: usize, n: u32) -> Result<Stepped, AllocError>
    requires machine { IsMachine code.now.tables m.old }
    requires place { place + 1 < 2 ^ 64 }
    requires going { act code.now.tables (instr.Drop n) (state_at code.now.tables place m.old) ≢ stuck }
    ensures told { Tells code.now.tables result
        (act code.now.tables (instr.Drop n) (state_at code.now.tables place m.old)) m.old m.new }
    ensures machine { OnOk result (IsMachine code.now.tables m.new) }
    ensures pool { OneMore m.old.pool m.new.pool }
{
    m.locals.shorten(n as usize);
    Ok(Stepped::To(place + 1))
}

/// Goes to t if a slot is filled.
#[tactic(auto, using(crate::proofs::Growth::staying))]
pub fn given(
    code: &Code,
    m: &mut Machine,
    place: usize,
    i: u32,
    t: u32,
) -> Result<Stepped, AllocError>
    requires machine { IsMachine code.now.tables m.old }
    requires place { place + 1 < 2 ^ 64 }
    requires going { act code.now.tables (instr.Given i t) (state_at code.now.tables place m.old) ≢ stuck }
    ensures told { Tells code.now.tables result
        (act code.now.tables (instr.Given i t) (state_at code.now.tables place m.old)) m.old m.new }
    ensures machine { OnOk result (IsMachine code.now.tables m.new) }
    ensures pool { OneMore m.old.pool m.new.pool }
{
    match m.slots.items()[i as usize] {
        Some(_) => Ok(Stepped::To(t as usize)),
        None => Ok(Stepped::To(place + 1)),
    }
}

/// Pops a truth value, and goes to t if it is false.
#[tactic(auto, using(crate::proofs::Growth::staying))]
pub fn jump_false(code: &Code, m: &mut Machine, place: usize, t: u32) -> Result<Stepped, AllocError>
    requires machine { IsMachine code.now.tables m.old }
    requires place { place + 1 < 2 ^ 64 }
    requires going { act code.now.tables (instr.JumpFalse t) (state_at code.now.tables place m.old) ≢ stuck }
    ensures told { Tells code.now.tables result
        (act code.now.tables (instr.JumpFalse t) (state_at code.now.tables place m.old)) m.old m.new }
    ensures machine { OnOk result (IsMachine code.now.tables m.new) }
    ensures pool { OneMore m.old.pool m.new.pool }
{
    let Some(r) = m.operands.pop() else {
        unreachable!()
    };
    let PoolNode::Boolean(truth) = *m.pool.look(r) else {
        unreachable!()
    };
    if truth {
        return Ok(Stepped::To(place + 1));
    }
    Ok(Stepped::To(t as usize))
}
