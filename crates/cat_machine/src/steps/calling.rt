// What instructions do with frames.
ghost use Rattle.std.specs.Prelude.{◌≡◌, ◌≢◌, ◌<◌, ◌+◌, ◌^◌, OnOk};
ghost use Rattle.cat_code.specs.States.{stuck};
ghost use Rattle.cat_code.specs.Machine.{act};
ghost use Rattle.cat_code.specs.declared.instr.Instr.TheVariants as instr;
ghost use Rattle.cat_machine.specs.States.{state_at};
ghost use Rattle.cat_machine.specs.Steps.{OneMore, Tells};
ghost use Rattle.cat_machine.specs.inside.Machines.{IsMachine};

use crate::machine::{End, Machine, Return, Stepped};
use cat_code::Code;
use std::alloc::AllocError;

/// Pops n arguments as the locals of a new frame, and goes to a function.
#[tactic(auto, using(crate::proofs::Growth::staying))]
pub fn call(
    code: &Code,
    m: &mut Machine,
    place: usize,
    f: u32,
    n: u32,
) -> Result<Stepped, AllocError>
    requires machine { IsMachine code.now.tables m.old }
    requires place { place + 1 < 2 ^ 64 }
    requires going { act code.now.tables (instr.Call f n) (state_at code.now.tables place m.old) ≢ stuck }
    ensures told { Tells code.now.tables result
        (act code.now.tables (instr.Call f n) (state_at code.now.tables place m.old)) m.old m.new }
    ensures machine { OnOk result (IsMachine code.now.tables m.new) }
    ensures pool { OneMore m.old.pool m.new.pool }
{
    let entry = *code.tables.functions.at(f as usize);
    m.locals.open(Some(Return {
        back: place + 1,
        own: false,
    }))?;
    m.locals.extend(m.operands.last(n))?;
    m.operands.forget(n);
    Ok(Stepped::To(entry as usize))
}

/// Makes a pending frame for a scope.
#[inline(always)]
#[tactic(auto, using(crate::proofs::Growth::staying))]
pub fn scope(code: &Code, m: &mut Machine, place: usize, n: u32) -> Result<Stepped, AllocError>
    requires machine { IsMachine code.now.tables m.old }
    requires place { place + 1 < 2 ^ 64 }
    requires going { act code.now.tables (instr.Scope n) (state_at code.now.tables place m.old) ≢ stuck }
    ensures told { Tells code.now.tables result
        (act code.now.tables (instr.Scope n) (state_at code.now.tables place m.old)) m.old m.new }
    ensures machine { OnOk result (IsMachine code.now.tables m.new) }
    ensures pool { OneMore m.old.pool m.new.pool }
{
    m.pending.open(n)?;
    let Some(scope) = code.tables.decls.get().scopes.get(n as usize) else {
        return Ok(Stepped::To(place + 1));
    };
    for _item in scope.items.as_slice() {
        m.pending.push(None)?;
    }
    Ok(Stepped::To(place + 1))
}

/// Pops into a slot of the pending frame.
#[tactic(auto, using(crate::proofs::Growth::staying))]
pub fn pass(code: &Code, m: &mut Machine, place: usize, i: u32) -> Result<Stepped, AllocError>
    requires machine { IsMachine code.now.tables m.old }
    requires place { place + 1 < 2 ^ 64 }
    requires going { act code.now.tables (instr.Pass i) (state_at code.now.tables place m.old) ≢ stuck }
    ensures told { Tells code.now.tables result
        (act code.now.tables (instr.Pass i) (state_at code.now.tables place m.old)) m.old m.new }
    ensures machine { OnOk result (IsMachine code.now.tables m.new) }
    ensures pool { OneMore m.old.pool m.new.pool }
{
    let Some(r) = m.operands.pop() else {
        unreachable!()
    };
    m.pending.set(i as usize, Some(r));
    Ok(Stepped::To(place + 1))
}

/// Goes to the entry of the pending frame.
#[inline(always)]
#[tactic(auto, using(crate::proofs::Growth::staying))]
pub fn enter(code: &Code, m: &mut Machine, place: usize) -> Result<Stepped, AllocError>
    requires machine { IsMachine code.now.tables m.old }
    requires place { place + 1 < 2 ^ 64 }
    requires going { act code.now.tables instr.Enter (state_at code.now.tables place m.old) ≢ stuck }
    ensures told { Tells code.now.tables result
        (act code.now.tables instr.Enter (state_at code.now.tables place m.old)) m.old m.new }
    ensures machine { OnOk result (IsMachine code.now.tables m.new) }
    ensures pool { OneMore m.old.pool m.new.pool }
{
    let Some(scope) = m.pending.head() else {
        unreachable!()
    };
    let entry = *code.tables.scopes.at(scope as usize);
    m.locals.open(Some(Return {
        back: place + 1,
        own: true,
    }))?;
    m.slots.open(())?;
    m.slots.extend(m.pending.items())?;
    m.pending.close();
    Ok(Stepped::To(entry as usize))
}

/// Goes back to the frame below; from the first one it ends the run.
#[tactic(auto, using(crate::proofs::Growth::staying))]
pub fn leave(code: &Code, m: &mut Machine, place: usize) -> Result<Stepped, AllocError>
    requires machine { IsMachine code.now.tables m.old }
    requires place { place + 1 < 2 ^ 64 }
    requires going { act code.now.tables instr.Return (state_at code.now.tables place m.old) ≢ stuck }
    ensures told { Tells code.now.tables result
        (act code.now.tables instr.Return (state_at code.now.tables place m.old)) m.old m.new }
    ensures machine { OnOk result (IsMachine code.now.tables m.new) }
    ensures pool { OneMore m.old.pool m.new.pool }
{
    let Some(here) = m.locals.head() else {
        unreachable!()
    };
    let Some(frame) = here else {
        let Some(r) = m.operands.pop() else {
            unreachable!()
        };
        return Ok(Stepped::Over(End::Outputs(r)));
    };
    m.locals.close();
    if !frame.own {
        return Ok(Stepped::To(frame.back));
    }
    m.slots.close();
    Ok(Stepped::To(frame.back))
}
