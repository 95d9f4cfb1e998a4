// A machine goes on from step to step up to its end.
ghost use Rattle.std.specs.Prelude.{◌≡◌, IfOk, IfErr};
ghost use Rattle.cat_machine.specs.inside.Machines.{IsMachine};
ghost use Rattle.cat_machine.specs.inside.Driven.{EndsFrom, EndsFrom-prop};
ghost use Rattle.cat_machine.specs.inside.Leading.{EndsSo, GoesOn, StopsSo, stand};

use crate::machine::{End, Machine, Stepped};
use crate::steps::step;
use cat_code::Code;
use std::alloc::AllocError;

/// A machine at a place, behind so many steps. Its run ends, and is not stuck.
#[derive(Drop)]
pub struct Going<'a> {
    pub code: &'a Code,
    pub place: usize,
    pub count: u64,
    pub machine: Box<Machine>,
    pub ghost ends: { EndsFrom code.now place machine.value } by { EndsFrom-prop code.now place machine.value },
}

/// A machine that has ended behind the step at a place, or for which memory ran out, after so many steps. It begins as
/// `Going` does, so that nothing is moved to another place when a step leads on.
#[derive(Drop)]
pub struct Ended<'a> {
    pub code: &'a Code,
    pub place: usize,
    pub count: u64,
    pub machine: Box<Machine>,
    pub end: Result<End, AllocError>,
}

/// One step, or the end.
#[inline(always)]
fn advance<'a>(going: Going<'a>) -> Result<Going<'a>, Ended<'a>>
    requires machine { IsMachine going.code.now.tables going.machine.value }
    ensures code { IfOk result (λ after. after.code.now ≡ going.entry.code.now) }
    ensures on { IfOk result (λ after. GoesOn going.entry.code.now
        (stand going.entry.place going.entry.count going.entry.machine.value)
        (stand after.place after.count after.machine.value)) }
    ensures end { IfErr result (λ ended. StopsSo going.entry.code.now
        (stand going.entry.place going.entry.count going.entry.machine.value) ended.end
        (stand 0 ended.count ended.machine.value)) }
{
    let Going {
        code,
        place,
        count,
        mut machine,
    } = going;
    let count = count.saturating_add(1);
    match step(code, &mut machine, place) {
        Ok(Stepped::To(place)) => Ok(Going {
            code,
            place,
            count,
            machine,
        }),
        Ok(Stepped::Over(end)) => Err(Ended {
            code,
            place,
            count,
            machine,
            end: Ok(end),
        }),
        Err(_) => Err(Ended {
            code,
            place,
            count,
            machine,
            end: Err(AllocError),
        }),
    }
}

/// The end of a run that ends.
#[inline(never)]
pub fn drive<'a>(start: Going<'a>) -> Ended<'a>
    requires machine { IsMachine start.code.now.tables start.machine.value }
    ensures { EndsSo start.entry.code.now (stand start.entry.place start.entry.count start.entry.machine.value)
        result.end (stand 0 result.count result.machine.value) }
{
    let mut going = start;
    loop {
        match advance(going) {
            Ok(after) => going = after,
            Err(ended) => return ended,
        }
    }
}
