// What instructions do with loops.
ghost use Rattle.std.specs.Prelude.{◌≡◌, ◌≢◌, ◌<◌, ◌+◌, ◌^◌, OnOk, length};
ghost use Rattle.cat_pool.specs.Nodes.{AreBelow};
ghost use Rattle.cat_machine.specs.inside.Looping.{BeginsLoop, TopIsList};
ghost use Rattle.cat_code.specs.States.{stuck};
ghost use Rattle.cat_code.specs.Machine.{act};
ghost use Rattle.cat_code.specs.declared.instr.Instr.TheVariants as instr;
ghost use Rattle.cat_machine.specs.States.{state_at};
ghost use Rattle.cat_machine.specs.Steps.{OneMore, Tells};
ghost use Rattle.cat_machine.specs.inside.Machines.{IsMachine};

use crate::machine::{LoopHead, Machine, Stepped};
use cat_code::Code;
use cat_pool::{PoolNode, Refs};
use std::alloc::AllocError;

/// Begins a loop over the elements of the list that is popped.
fn begin(m: &mut Machine, collects: bool) -> Result<(), AllocError>
    requires below { AreBelow (length m.old.pool) m.old.operands }
    requires list { TopIsList m.old }
    ensures ok { OnOk result (BeginsLoop m.old m.new collects) }
    ensures pool { m.new.pool ≡ m.old.pool }
{
    let Some(r) = m.operands.pop() else {
        unreachable!()
    };
    let PoolNode::List(left) = *m.pool.look(r) else {
        unreachable!()
    };
    m.loops.open(LoopHead { left, collects })?;
    Ok(())
}

/// Pops a list, and begins a loop over it.
#[tactic(auto, using(crate::proofs::Growth::staying))]
pub fn iter(code: &Code, m: &mut Machine, place: usize) -> Result<Stepped, AllocError>
    requires machine { IsMachine code.now.tables m.old }
    requires place { place + 1 < 2 ^ 64 }
    requires going { act code.now.tables instr.Iter (state_at code.now.tables place m.old) ≢ stuck }
    ensures told { Tells code.now.tables result
        (act code.now.tables instr.Iter (state_at code.now.tables place m.old)) m.old m.new }
    ensures machine { OnOk result (IsMachine code.now.tables m.new) }
    ensures pool { OneMore m.old.pool m.new.pool }
{
    begin(m, false)?;
    Ok(Stepped::To(place + 1))
}

/// Pops a list, and begins a loop over it that collects.
#[tactic(auto, using(crate::proofs::Growth::staying))]
pub fn iter_list(code: &Code, m: &mut Machine, place: usize, k: u32) -> Result<Stepped, AllocError>
    requires machine { IsMachine code.now.tables m.old }
    requires place { place + 1 < 2 ^ 64 }
    requires going { act code.now.tables (instr.IterList k) (state_at code.now.tables place m.old) ≢ stuck }
    ensures told { Tells code.now.tables result
        (act code.now.tables (instr.IterList k) (state_at code.now.tables place m.old)) m.old m.new }
    ensures machine { OnOk result (IsMachine code.now.tables m.new) }
    ensures pool { OneMore m.old.pool m.new.pool }
{
    begin(m, true)?;
    Ok(Stepped::To(place + 1))
}

/// Pushes the next element, or ends the loop, pushes what it collected and goes to t.
#[tactic(auto, using(crate::proofs::Growth::staying))]
pub fn next(code: &Code, m: &mut Machine, place: usize, t: u32) -> Result<Stepped, AllocError>
    requires machine { IsMachine code.now.tables m.old }
    requires place { place + 1 < 2 ^ 64 }
    requires going { act code.now.tables (instr.Next t) (state_at code.now.tables place m.old) ≢ stuck }
    ensures told { Tells code.now.tables result
        (act code.now.tables (instr.Next t) (state_at code.now.tables place m.old)) m.old m.new }
    ensures machine { OnOk result (IsMachine code.now.tables m.new) }
    ensures pool { OneMore m.old.pool m.new.pool }
{
    let Some(top) = m.loops.head() else {
        unreachable!()
    };
    let left = top.left;
    if left.start < left.end {
        let element = m.pool.parts(left)[0];
        let left = Refs {
            start: left.start + 1,
            end: left.end,
        };
        m.loops.set_head(LoopHead {
            left,
            collects: top.collects,
        })?;
        m.operands.push(element)?;
        return Ok(Stepped::To(place + 1));
    }
    if !top.collects {
        m.loops.close();
        return Ok(Stepped::To(t as usize));
    }
    let r = m.pool.put_list(m.loops.items())?;
    m.operands.push(r)?;
    m.loops.close();
    Ok(Stepped::To(t as usize))
}

/// Pops a value, and puts it behind those that the loop collected.
#[tactic(auto, using(crate::proofs::Growth::staying))]
pub fn collect(code: &Code, m: &mut Machine, place: usize) -> Result<Stepped, AllocError>
    requires machine { IsMachine code.now.tables m.old }
    requires place { place + 1 < 2 ^ 64 }
    requires going { act code.now.tables instr.Collect (state_at code.now.tables place m.old) ≢ stuck }
    ensures told { Tells code.now.tables result
        (act code.now.tables instr.Collect (state_at code.now.tables place m.old)) m.old m.new }
    ensures machine { OnOk result (IsMachine code.now.tables m.new) }
    ensures pool { OneMore m.old.pool m.new.pool }
{
    let Some(r) = m.operands.pop() else {
        unreachable!()
    };
    m.loops.push(r)?;
    Ok(Stepped::To(place + 1))
}

/// Ends the loop.
#[tactic(auto, using(crate::proofs::Growth::staying))]
pub fn leave(code: &Code, m: &mut Machine, place: usize) -> Result<Stepped, AllocError>
    requires machine { IsMachine code.now.tables m.old }
    requires place { place + 1 < 2 ^ 64 }
    requires going { act code.now.tables instr.Leave (state_at code.now.tables place m.old) ≢ stuck }
    ensures told { Tells code.now.tables result
        (act code.now.tables instr.Leave (state_at code.now.tables place m.old)) m.old m.new }
    ensures machine { OnOk result (IsMachine code.now.tables m.new) }
    ensures pool { OneMore m.old.pool m.new.pool }
{
    m.loops.close();
    Ok(Stepped::To(place + 1))
}
