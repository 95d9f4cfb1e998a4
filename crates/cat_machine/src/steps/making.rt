// What instructions do with values that have parts.
ghost use Rattle.std.specs.Prelude.{◌≡◌, ◌≢◌, ◌<◌, ◌+◌, ◌^◌, OnOk};
ghost use Rattle.cat_code.specs.States.{stuck};
ghost use Rattle.cat_code.specs.Machine.{act};
ghost use Rattle.cat_code.specs.declared.instr.Instr.TheVariants as instr;
ghost use Rattle.cat_machine.specs.States.{state_at};
ghost use Rattle.cat_machine.specs.Steps.{OneMore, Tells};
ghost use Rattle.cat_machine.specs.inside.Machines.{IsMachine};

use crate::machine::{Machine, Stepped};
use crate::steps::operating::truth_of;
use cat_code::Code;
use cat_num::Whole;
use cat_pool::PoolNode;
use std::alloc::AllocError;

/// Pops n values, and pushes a structure of them.
#[inline(always)]
pub fn pack(code: &Code, m: &mut Machine, place: usize, n: u32) -> Result<Stepped, AllocError>
    requires machine { IsMachine code.now.tables m.old }
    requires place { place + 1 < 2 ^ 64 }
    requires going { act code.now.tables (instr.Pack n) (state_at code.now.tables place m.old) ≢ stuck }
    ensures told { Tells code.now.tables result
        (act code.now.tables (instr.Pack n) (state_at code.now.tables place m.old)) m.old m.new }
    ensures machine { OnOk result (IsMachine code.now.tables m.new) }
    ensures pool { OneMore m.old.pool m.new.pool }
{
    let r = m.pool.put_structure(m.operands.last(n))?;
    m.operands.forget(n);
    m.operands.push(r)?;
    Ok(Stepped::To(place + 1))
}

/// Pops n values, and pushes a list of them.
#[inline(always)]
pub fn list(code: &Code, m: &mut Machine, place: usize, n: u32) -> Result<Stepped, AllocError>
    requires machine { IsMachine code.now.tables m.old }
    requires place { place + 1 < 2 ^ 64 }
    requires going { act code.now.tables (instr.List n) (state_at code.now.tables place m.old) ≢ stuck }
    ensures told { Tells code.now.tables result
        (act code.now.tables (instr.List n) (state_at code.now.tables place m.old)) m.old m.new }
    ensures machine { OnOk result (IsMachine code.now.tables m.new) }
    ensures pool { OneMore m.old.pool m.new.pool }
{
    let r = m.pool.put_list(m.operands.last(n))?;
    m.operands.forget(n);
    m.operands.push(r)?;
    Ok(Stepped::To(place + 1))
}

/// Pops a structure, and pushes a field of it.
pub fn field(code: &Code, m: &mut Machine, place: usize, i: u32) -> Result<Stepped, AllocError>
    requires machine { IsMachine code.now.tables m.old }
    requires place { place + 1 < 2 ^ 64 }
    requires going { act code.now.tables (instr.Field i) (state_at code.now.tables place m.old) ≢ stuck }
    ensures told { Tells code.now.tables result
        (act code.now.tables (instr.Field i) (state_at code.now.tables place m.old)) m.old m.new }
    ensures machine { OnOk result (IsMachine code.now.tables m.new) }
    ensures pool { OneMore m.old.pool m.new.pool }
{
    let Some(r) = m.operands.pop() else {
        unreachable!()
    };
    let PoolNode::Structure(refs) = *m.pool.look(r) else {
        unreachable!()
    };
    let part = m.pool.parts(refs)[i as usize];
    m.operands.push(part)?;
    Ok(Stepped::To(place + 1))
}

/// Pops a content, and pushes the case of it.
pub fn tag(code: &Code, m: &mut Machine, place: usize, c: u32) -> Result<Stepped, AllocError>
    requires machine { IsMachine code.now.tables m.old }
    requires place { place + 1 < 2 ^ 64 }
    requires going { act code.now.tables (instr.Tag c) (state_at code.now.tables place m.old) ≢ stuck }
    ensures told { Tells code.now.tables result
        (act code.now.tables (instr.Tag c) (state_at code.now.tables place m.old)) m.old m.new }
    ensures machine { OnOk result (IsMachine code.now.tables m.new) }
    ensures pool { OneMore m.old.pool m.new.pool }
{
    let Some(content) = m.operands.pop() else {
        unreachable!()
    };
    let case = code.tables.cases.at(c as usize).case;
    let r = m.pool.put(PoolNode::Case(case, Some(content)))?;
    m.operands.push(r)?;
    Ok(Stepped::To(place + 1))
}

/// Pushes a case that has no content.
#[inline(always)]
pub fn tag_none(code: &Code, m: &mut Machine, place: usize, c: u32) -> Result<Stepped, AllocError>
    requires machine { IsMachine code.now.tables m.old }
    requires place { place + 1 < 2 ^ 64 }
    requires going { act code.now.tables (instr.TagNone c) (state_at code.now.tables place m.old) ≢ stuck }
    ensures told { Tells code.now.tables result
        (act code.now.tables (instr.TagNone c) (state_at code.now.tables place m.old)) m.old m.new }
    ensures machine { OnOk result (IsMachine code.now.tables m.new) }
    ensures pool { OneMore m.old.pool m.new.pool }
{
    let case = code.tables.cases.at(c as usize).case;
    let r = m.pool.put(PoolNode::Case(case, None))?;
    m.operands.push(r)?;
    Ok(Stepped::To(place + 1))
}

/// Pops a case, and pushes whether it is this one.
pub fn is_case(code: &Code, m: &mut Machine, place: usize, c: u32) -> Result<Stepped, AllocError>
    requires machine { IsMachine code.now.tables m.old }
    requires place { place + 1 < 2 ^ 64 }
    requires going { act code.now.tables (instr.IsCase c) (state_at code.now.tables place m.old) ≢ stuck }
    ensures told { Tells code.now.tables result
        (act code.now.tables (instr.IsCase c) (state_at code.now.tables place m.old)) m.old m.new }
    ensures machine { OnOk result (IsMachine code.now.tables m.new) }
    ensures pool { OneMore m.old.pool m.new.pool }
{
    let Some(r) = m.operands.pop() else {
        unreachable!()
    };
    let PoolNode::Case(case, _) = *m.pool.look(r) else {
        unreachable!()
    };
    let truth = truth_of(m, case == code.tables.cases.at(c as usize).case)?;
    m.operands.push(truth)?;
    Ok(Stepped::To(place + 1))
}

/// Pops a case, and pushes its content.
pub fn content(code: &Code, m: &mut Machine, place: usize) -> Result<Stepped, AllocError>
    requires machine { IsMachine code.now.tables m.old }
    requires place { place + 1 < 2 ^ 64 }
    requires going { act code.now.tables instr.Content (state_at code.now.tables place m.old) ≢ stuck }
    ensures told { Tells code.now.tables result
        (act code.now.tables instr.Content (state_at code.now.tables place m.old)) m.old m.new }
    ensures machine { OnOk result (IsMachine code.now.tables m.new) }
    ensures pool { OneMore m.old.pool m.new.pool }
{
    let Some(r) = m.operands.pop() else {
        unreachable!()
    };
    let PoolNode::Case(_, content) = *m.pool.look(r) else {
        unreachable!()
    };
    let Some(content) = content else {
        unreachable!()
    };
    m.operands.push(content)?;
    Ok(Stepped::To(place + 1))
}

/// Pops a list, and pushes how many elements it has.
pub fn length(code: &Code, m: &mut Machine, place: usize) -> Result<Stepped, AllocError>
    requires machine { IsMachine code.now.tables m.old }
    requires place { place + 1 < 2 ^ 64 }
    requires going { act code.now.tables instr.Length (state_at code.now.tables place m.old) ≢ stuck }
    ensures told { Tells code.now.tables result
        (act code.now.tables instr.Length (state_at code.now.tables place m.old)) m.old m.new }
    ensures machine { OnOk result (IsMachine code.now.tables m.new) }
    ensures pool { OneMore m.old.pool m.new.pool }
{
    let Some(r) = m.operands.pop() else {
        unreachable!()
    };
    let PoolNode::List(refs) = *m.pool.look(r) else {
        unreachable!()
    };
    let count = Whole::new(i64::from(refs.end - refs.start)).unwrap();
    let r = m.pool.put(PoolNode::Integer(count))?;
    m.operands.push(r)?;
    Ok(Stepped::To(place + 1))
}
