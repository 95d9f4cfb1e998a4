// Stamps that are led on from where scopes begin, also by calls, and which of them come to each instruction.
ghost use Rattle.std.specs.Prelude.{◌≡◌, ◌+◌, ◌<◌, ◌++◌, length, map, slice_get, slice_index_or, IfOk, OnOk};
ghost use Rattle.cat_pos.specs.declared.limits.TheConstants.{ENTRIES_BOUND};
ghost use Rattle.cat_verify_shapes.specs.Belonging.{goes_on, leads_on};
ghost use Rattle.cat_verify.specs.inside.Stamped.{AreStamps};
ghost use Rattle.cat_verify.specs.inside.Spreading.{with_stamp, to_next, by_jump, by_call, to_each, spread};

use crate::jumps::jump_of;
use cat_code::Instr;
use cat_pos::List;
use std::alloc::{AllocError, Global};

/// A stamp that comes to a place.
#[derive(Clone, Copy)]
pub(crate) struct Arrival {
    pub place: u32,
    pub stamp: u32,
}

/// The stamps that come to an instruction: of several ones, two.
#[derive(Clone, Copy)]
pub(crate) enum Stamps {
    Nobody,
    One(u32),
    Two(u32, u32),
}

fn goes_on(instr: Instr) -> bool
    ensures { result ≡ goes_on instr }
{
    match instr {
        Instr::Jump(_) | Instr::Return | Instr::NoValue(_) => false,
        _ => true,
    }
}

/// The stamps with one more, where that tells more of an instruction.
fn with_stamp(stamps: Stamps, stamp: u32) -> Option<Stamps>
    ensures { result ≡ with_stamp stamps stamp }
{
    match stamps {
        Stamps::Nobody => Some(Stamps::One(stamp)),
        Stamps::One(first) => {
            if first == stamp {
                return None;
            }
            Some(Stamps::Two(first, stamp))
        }
        Stamps::Two(_, _) => None,
    }
}

fn pass_to_next(
    waiting: &mut List<Arrival>,
    instr: Instr,
    arrival: Arrival,
) -> Result<(), AllocError>
    requires { arrival.place + 1 < ENTRIES_BOUND }
    ensures { OnOk result (waiting.new ≡ waiting.old ++ map (to_each arrival.stamp) (to_next instr arrival.place)) }
{
    if !goes_on(instr) {
        return Ok(());
    }
    let place = arrival.place + 1;
    waiting.push(Arrival { place, ..arrival })?;
    Ok(())
}

fn pass_by_jump(
    waiting: &mut List<Arrival>,
    instr: Instr,
    arrival: Arrival,
) -> Result<(), AllocError>
    ensures { OnOk result (waiting.new ≡ waiting.old ++ map (to_each arrival.stamp) (by_jump instr)) }
{
    let Some(place) = jump_of(instr) else {
        return Ok(());
    };
    waiting.push(Arrival { place, ..arrival })
}

/// What an instruction leads to waits with its stamp.
fn pass_on(waiting: &mut List<Arrival>, instr: Instr, arrival: Arrival) -> Result<(), AllocError>
    requires { arrival.place + 1 < ENTRIES_BOUND }
    ensures { OnOk result (waiting.new ≡ waiting.old ++ map (to_each arrival.stamp) (leads_on instr arrival.place)) }
{
    pass_to_next(waiting, instr, arrival)?;
    pass_by_jump(waiting, instr, arrival)?;
    Ok(())
}

/// The stamp of the function that an instruction calls waits at its entry.
fn pass_by_call(
    waiting: &mut List<Arrival>,
    calls: &[Arrival],
    instr: Instr,
) -> Result<(), AllocError>
    ensures { OnOk result (waiting.new ≡ waiting.old ++ by_call calls.now instr) }
{
    let Instr::Call(function, _) = instr else {
        return Ok(());
    };
    let Some(&entry) = calls.get(function as usize) else {
        return Ok(());
    };
    waiting.push(entry)
}

/// A stamp comes to a place, and goes on from there where it is new.
fn spread(
    code: &[Instr],
    calls: &[Arrival],
    marks: &mut [Stamps],
    waiting: &mut List<Arrival>,
    arrival: Arrival,
) -> Result<(), AllocError>
    requires few { length code.now < ENTRIES_BOUND }
    requires one_each { length marks.old ≡ length code.now }
    ensures { OnOk result (spread code.now calls.now arrival (record { marks = marks.old; waiting = waiting.old })
        ≡ record { marks = marks.new; waiting = waiting.new }) }
{
    let at = arrival.place as usize;
    let Some(&instr) = code.get(at) else {
        return Ok(());
    };
    let Some(stamps) = with_stamp(marks[at], arrival.stamp) else {
        return Ok(());
    };
    marks[at] = stamps;
    pass_on(waiting, instr, arrival)?;
    pass_by_call(waiting, calls, instr)
}

/// For each instruction the stamps that come to it, from where scopes start, and from where functions do that are
/// called. It takes time in proportion to the code.
pub(crate) fn stamps_of(
    alloc: Global,
    code: &[Instr],
    starts: &[Arrival],
    calls: &[Arrival],
) -> Result<Vec<Stamps>, AllocError>
    requires few { length code.now < ENTRIES_BOUND }
    ensures { IfOk result (λ marks. AreStamps code.now starts.now calls.now marks.items) }
{
    let mut marks = vec![in alloc; Stamps::Nobody; code.len()]?;
    let mut waiting = List::from_slice(alloc, starts)?;
    while let Some(arrival) = waiting.pop() {
        spread(code, calls, &mut marks, &mut waiting, arrival)?;
    }
    Ok(marks)
}
