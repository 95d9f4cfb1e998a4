// A machine is made ready.
ghost use Rattle.std.specs.Prelude.{◌≡◌, ◌+◌, [], IfOk, OnOk, length};
ghost use Rattle.cat_pool.specs.Loading.{Extends};
ghost use Rattle.cat_machine.specs.Running.{constant_count, entry_count};
ghost use Rattle.cat_machine.specs.inside.Begun.{AreConstants, emptied, HasInput, IsEmpty, IsEntry, IsReady};

use crate::layers::Layers;
use crate::machine::{Machine, Truths};
use crate::operands::Operands;
use cat_code::Code;
use cat_pool::{Pool, Ref, References};
use cat_pos::List;
use cat_value::{Input, Value};
use std::alloc::{AllocError, Global};
use std::mem;

/// A machine over an empty pool.
pub fn empty(alloc: Global) -> Machine
    ensures empty { IsEmpty result }
    ensures pool { result.pool ≡ [] }
{
    Machine {
        pool: Pool::new(alloc),
        operands: Operands::new(alloc),
        locals: Layers::new(alloc),
        slots: Layers::new(alloc),
        defaults: Layers::new(alloc),
        loops: Layers::new(alloc),
        pending: Layers::new(alloc),
        constants: List::new(alloc),
        truths: Truths {
            yes: None,
            no: None,
        },
        log: List::new(alloc),
    }
}

/// The machine is as if no run had begun, but for its pool. The room that the run took stays.
pub fn clear(m: &mut Machine)
    ensures { m.new ≡ emptied m.old.pool }
{
    m.operands.clear();
    m.locals.clear();
    m.slots.clear();
    m.defaults.clear();
    m.loops.clear();
    m.pending.clear();
    m.truths = Truths {
        yes: None,
        no: None,
    };
    m.constants.clear();
    m.log.clear();
}

/// The constants of the code as nodes behind those of a pool.
pub fn load_constants(alloc: Global, code: &Code, pool: &mut Pool) -> Result<References, AllocError>
    ensures loaded { IfOk result (AreConstants code.now.tables pool.new) }
    ensures count { OnOk result (length pool.new ≡ length pool.old + constant_count code.now.tables.constants) }
    ensures kept { Extends pool.old pool.new }
{
    let mut constants = List::new(alloc);
    for constant in code.tables.constants.as_slice() {
        let r = pool.load(alloc, &constant.value)?;
        constants.push(r)?;
    }
    Ok(constants)
}

/// The node of an entry, where it is given.
fn load_entry(
    alloc: Global,
    pool: &mut Pool,
    entry: &Option<Value>,
) -> Result<Option<Ref>, AllocError>
    ensures loaded { IfOk result (IsEntry pool.new entry.now) }
    ensures count { OnOk result (length pool.new ≡ length pool.old + entry_count entry.now) }
    ensures kept { Extends pool.old pool.new }
{
    let Some(value) = entry else {
        return Ok(None);
    };
    let r = pool.load(alloc, value)?;
    Ok(Some(r))
}

/// What is given, as nodes in the slots of the first frame.
fn load_input(alloc: Global, input: &Input, m: &mut Machine) -> Result<(), AllocError>
    ensures loaded { OnOk result (HasInput input.now m.old m.new) }
    ensures pool { Extends m.old.pool m.new.pool }
{
    m.slots.open(())?;
    for entry in input.as_slice() {
        let slot = load_entry(alloc, &mut m.pool, entry)?;
        m.slots.push(slot)?;
    }
    Ok(())
}

/// The constants of the code in a machine that has none, in the room that it has for them.
fn take_constants(alloc: Global, constants: &[Ref], m: &mut Machine) -> Result<(), AllocError>
    requires none { m.old.constants ≡ [] }
    ensures taken { OnOk result (m.new ≡ record m.old { constants = constants.now }) }
    ensures pool { m.new.pool ≡ m.old.pool }
{
    let mut refs = mem::replace(&mut m.constants, List::new(alloc)).into_vec();
    refs.extend_from_slice(constants)?;
    m.constants = List::from_vec(refs);
    Ok(())
}

/// A machine with the constants of the code, and with the input in its slots.
pub fn make_ready(
    alloc: Global,
    code: &Code,
    constants: &[Ref],
    input: &Input,
    m: &mut Machine,
) -> Result<(), AllocError>
    requires empty { IsEmpty m.old }
    requires constants { AreConstants code.now.tables m.old.pool constants.now }
    ensures ready { OnOk result (IsReady code.now input.now m.old.pool m.new) }
    ensures pool { Extends m.old.pool m.new.pool }
{
    take_constants(alloc, constants, m)?;
    m.locals.open(None)?;
    load_input(alloc, input, m)?;
    Ok(())
}
