// What instructions do with default frames.
ghost use Rattle.std.specs.Prelude.{◌≡◌, ◌≢◌, ◌<◌, ◌+◌, ◌^◌, OnOk, slice_get};
ghost use Rattle.cat_code.specs.Logged.{is_function_target};
ghost use Rattle.cat_machine.specs.inside.Logging.{HeldHas, LogsTarget, number_of};
ghost use Rattle.cat_code.specs.States.{stuck};
ghost use Rattle.cat_code.specs.Machine.{act};
ghost use Rattle.cat_code.specs.declared.instr.Instr.TheVariants as instr;
ghost use Rattle.cat_machine.specs.States.{state_at};
ghost use Rattle.cat_machine.specs.Steps.{OneMore, Tells};
ghost use Rattle.cat_machine.specs.inside.Machines.{IsMachine};

use crate::log::LogEntry;
use crate::machine::{End, HeldRef, Machine, Stepped};
use cat_code::Code;
use cat_value::{Decls, Target};
use std::alloc::AllocError;

fn is_function_target(decls: &Decls, target: Target) -> bool
    ensures { result ≡ is_function_target decls.now target target.inner }
{
    if target.inner.is_some() {
        return false;
    }
    let Some(scope) = decls.scopes.get(target.scope as usize) else {
        return false;
    };
    match scope.items.get(target.item as usize) {
        Some(item) => item.is_function(),
        None => false,
    }
}

/// The number of a definition that holds.
fn number_of(found: Option<HeldRef>) -> Option<u32>
    ensures { result ≡ number_of found }
{
    match found {
        Some(held) => Some(held.definition),
        None => None,
    }
}

/// Logs how the judging of a target ended, but of a function.
#[inline(never)]
fn log_target(
    code: &Code,
    m: &mut Machine,
    checked: Option<u32>,
    found: Option<HeldRef>,
) -> Result<(), AllocError>
    requires { HeldHas code.now.tables found }
    ensures ok { OnOk result (LogsTarget code.now.tables m.old m.new checked found) }
    ensures pool { m.new.pool ≡ m.old.pool }
{
    let Some(target) = checked else {
        return Ok(());
    };
    let Some(entry) = code.tables.targets.get(target as usize) else {
        return Ok(());
    };
    if is_function_target(code.tables.decls.get(), entry.target) {
        return Ok(());
    }
    m.log.push(LogEntry {
        target,
        definition: number_of(found),
    })?;
    Ok(())
}

/// The first that holds.
fn first(held: &[HeldRef]) -> Option<HeldRef>
    ensures { result ≡ slice_get held.now 0 }
{
    match held {
        [] => None,
        [one, ..] => Some(*one),
    }
}

/// Makes an empty default frame.
pub fn begin(code: &Code, m: &mut Machine, place: usize, v: u32) -> Result<Stepped, AllocError>
    requires machine { IsMachine code.now.tables m.old }
    requires place { place + 1 < 2 ^ 64 }
    requires going { act code.now.tables (instr.Begin v) (state_at code.now.tables place m.old) ≢ stuck }
    ensures told { Tells code.now.tables result
        (act code.now.tables (instr.Begin v) (state_at code.now.tables place m.old)) m.old m.new }
    ensures machine { OnOk result (IsMachine code.now.tables m.new) }
    ensures pool { OneMore m.old.pool m.new.pool }
{
    m.defaults.open(None)?;
    Ok(Stepped::To(place + 1))
}

/// Pops a value, and puts it into the default frame as that of a definition.
pub fn hold(code: &Code, m: &mut Machine, place: usize, d: u32) -> Result<Stepped, AllocError>
    requires machine { IsMachine code.now.tables m.old }
    requires place { place + 1 < 2 ^ 64 }
    requires going { act code.now.tables (instr.Hold d) (state_at code.now.tables place m.old) ≢ stuck }
    ensures told { Tells code.now.tables result
        (act code.now.tables (instr.Hold d) (state_at code.now.tables place m.old)) m.old m.new }
    ensures machine { OnOk result (IsMachine code.now.tables m.new) }
    ensures pool { OneMore m.old.pool m.new.pool }
{
    let Some(value) = m.operands.pop() else {
        unreachable!()
    };
    m.defaults.push(HeldRef {
        definition: d,
        value,
    })?;
    Ok(Stepped::To(place + 1))
}

/// Puts what the default frame holds into the one below.
pub fn merge(code: &Code, m: &mut Machine, place: usize) -> Result<Stepped, AllocError>
    requires machine { IsMachine code.now.tables m.old }
    requires place { place + 1 < 2 ^ 64 }
    requires going { act code.now.tables instr.Merge (state_at code.now.tables place m.old) ≢ stuck }
    ensures told { Tells code.now.tables result
        (act code.now.tables instr.Merge (state_at code.now.tables place m.old)) m.old m.new }
    ensures machine { OnOk result (IsMachine code.now.tables m.new) }
    ensures pool { OneMore m.old.pool m.new.pool }
{
    m.defaults.join();
    Ok(Stepped::To(place + 1))
}

/// Ends with a conflict where the default frame holds two or more.
pub fn check(code: &Code, m: &mut Machine, place: usize, v: u32) -> Result<Stepped, AllocError>
    requires machine { IsMachine code.now.tables m.old }
    requires place { place + 1 < 2 ^ 64 }
    requires going { act code.now.tables (instr.Check v) (state_at code.now.tables place m.old) ≢ stuck }
    ensures told { Tells code.now.tables result
        (act code.now.tables (instr.Check v) (state_at code.now.tables place m.old)) m.old m.new }
    ensures machine { OnOk result (IsMachine code.now.tables m.new) }
    ensures pool { OneMore m.old.pool m.new.pool }
{
    if m.defaults.items().len() > 1 {
        return Ok(Stepped::Over(End::Conflict(v)));
    }
    m.defaults.set_head(Some(v))?;
    Ok(Stepped::To(place + 1))
}

/// Goes to t if the default frame holds a definition.
pub fn held(code: &Code, m: &mut Machine, place: usize, t: u32) -> Result<Stepped, AllocError>
    requires machine { IsMachine code.now.tables m.old }
    requires place { place + 1 < 2 ^ 64 }
    requires going { act code.now.tables (instr.Held t) (state_at code.now.tables place m.old) ≢ stuck }
    ensures told { Tells code.now.tables result
        (act code.now.tables (instr.Held t) (state_at code.now.tables place m.old)) m.old m.new }
    ensures machine { OnOk result (IsMachine code.now.tables m.new) }
    ensures pool { OneMore m.old.pool m.new.pool }
{
    if m.defaults.items().is_empty() {
        Ok(Stepped::To(place + 1))
    } else {
        Ok(Stepped::To(t as usize))
    }
}

/// Takes the default frame off, and pushes its one value, or goes to t.
pub fn take(code: &Code, m: &mut Machine, place: usize, t: u32) -> Result<Stepped, AllocError>
    requires machine { IsMachine code.now.tables m.old }
    requires place { place + 1 < 2 ^ 64 }
    requires going { act code.now.tables (instr.Take t) (state_at code.now.tables place m.old) ≢ stuck }
    ensures told { Tells code.now.tables result
        (act code.now.tables (instr.Take t) (state_at code.now.tables place m.old)) m.old m.new }
    ensures machine { OnOk result (IsMachine code.now.tables m.new) }
    ensures pool { OneMore m.old.pool m.new.pool }
{
    let Some(checked) = m.defaults.head() else {
        unreachable!()
    };
    let found = first(m.defaults.items());
    log_target(code, m, checked, found)?;
    m.defaults.close();
    match found {
        Some(held) => {
            m.operands.push(held.value)?;
            Ok(Stepped::To(place + 1))
        }
        None => Ok(Stepped::To(t as usize)),
    }
}

/// Ends with no value of a target.
pub fn no_value(code: &Code, m: &mut Machine, place: usize, v: u32) -> Result<Stepped, AllocError>
    requires machine { IsMachine code.now.tables m.old }
    requires place { place + 1 < 2 ^ 64 }
    requires going { act code.now.tables (instr.NoValue v) (state_at code.now.tables place m.old) ≢ stuck }
    ensures told { Tells code.now.tables result
        (act code.now.tables (instr.NoValue v) (state_at code.now.tables place m.old)) m.old m.new }
    ensures machine { OnOk result (IsMachine code.now.tables m.new) }
    ensures pool { OneMore m.old.pool m.new.pool }
{
    Ok(Stepped::Over(End::NoValue(v)))
}
