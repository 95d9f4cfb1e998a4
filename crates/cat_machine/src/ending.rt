// The outcome of a run that has ended.
ghost use Rattle.std.specs.Prelude.{◌≡◌, ◌<◌, ◌≤◌, Some, IfOk, IsSome, OnOk, length, map};
ghost use Rattle.std.specs.Prelude.{List as Listed};
ghost use Rattle.cat_value.specs.declared.value.Value.{Value as Valued};
ghost use Rattle.cat_scope.specs.Judging.{in_source_order, positions_in};
ghost use Rattle.cat_scope.specs.Outcomes.{outcome_of};
ghost use Rattle.cat_scope.specs.Projections.{parts};
ghost use Rattle.cat_pool.specs.Nodes.{at, values};
ghost use Rattle.cat_machine.specs.States.{held_of};
ghost use Rattle.cat_machine.specs.Steps.{EndWithin, ending};
ghost use Rattle.cat_machine.specs.inside.Begun.{GivesEnd, HasEnd};
ghost use Rattle.cat_machine.specs.inside.Machines.{IsMachine};
ghost use Rattle.cat_machine.specs.inside.Outcomes.{AreDefinitions, by_number, place_among, position_of};

use crate::machine::{End, HeldRef, Machine};
use cat_code::Code;
use cat_pool::Ref;
use cat_pos::{List, Positions};
use cat_value::{Outcome, Value};
use std::alloc::{AllocError, Global};

/// Outputs of more nodes than this, with that of their structure, are as if memory had run out.
const MOST_NODES: u32 = 16_777_217;

/// The fields of a structure, each in memory of its own.
fn outputs(alloc: Global, m: &Machine, r: Ref) -> Result<Outcome, AllocError>
    requires within { r < length m.now.pool }
    requires structure { IsSome (outcome_of (parts (at (values m.now.pool) r))) }
    ensures { IfOk result (λ made. outcome_of (parts (at (values m.now.pool) r)) ≡ Some made) }
{
    if !m.pool.is_small(r, MOST_NODES) {
        return Err(AllocError);
    }
    match m.pool.unload(alloc, r)? {
        Value::Structure(values) => Ok(Outcome::Value(values)),
        _ => unreachable!(),
    }
}

/// How many definitions stand in front of the first of a higher number.
fn place_among(sorted: &[HeldRef], held: HeldRef) -> usize
    ensures place { result ≡ place_among held sorted.now }
    ensures within { result ≤ length sorted.now }
{
    let mut at = 0;
    for one in sorted {
        if held.definition < one.definition {
            return at;
        }
        at += 1;
    }
    at
}

/// Definitions by their numbers, the lowest first.
fn by_number(alloc: Global, held: &[HeldRef]) -> Result<Vec<HeldRef>, AllocError>
    ensures { IfOk result (λ sorted. sorted.items ≡ by_number held.now) }
{
    let mut sorted = Vec::new(alloc);
    let mut at = held.len();
    while at > 0 {
        at -= 1;
        let one = held[at];
        let place = place_among(&sorted, one);
        sorted.insert(place, one)?;
    }
    Ok(sorted)
}

/// The positions of definitions.
fn positions_of(alloc: Global, code: &Code, held: &[HeldRef]) -> Result<Positions, AllocError>
    requires { AreDefinitions code.now.tables held.now }
    ensures { IfOk result (λ made. made ≡ map (position_of code.now.tables) held.now) }
{
    let mut positions = List::new(alloc);
    for one in held {
        positions.push(*code.tables.definitions.at(one.definition as usize))?;
    }
    Ok(positions)
}

/// The positions of definitions in source order.
fn positions(alloc: Global, code: &Code, held: &[HeldRef]) -> Result<Positions, AllocError>
    requires { AreDefinitions code.now.tables held.now }
    ensures { (vs : Listed Valued)
        → IfOk result (λ made. made ≡ positions_in (in_source_order (map (held_of code.now.tables vs) held.now))) }
{
    let sorted = by_number(alloc, held)?;
    positions_of(alloc, code, &sorted)
}

/// The outcome of a run that has ended.
fn outcome_of(alloc: Global, code: &Code, m: &Machine, end: End) -> Result<Outcome, AllocError>
    requires machine { IsMachine code.now.tables m.now }
    requires within { EndWithin m.now end }
    requires some { IsSome (outcome_of (ending code.now.tables m.now end)) }
    ensures { IfOk result (λ made. outcome_of (ending code.now.tables m.now end) ≡ Some made) }
{
    match end {
        End::Outputs(r) => outputs(alloc, m, r),
        End::Conflict(v) => {
            let target = code.tables.targets.at(v as usize).target;
            let positions = positions(alloc, code, m.defaults.items())?;
            Ok(Outcome::Conflict(target, positions))
        }
        End::NoValue(v) => {
            let entry = code.tables.targets.at(v as usize);
            Ok(Outcome::NoValue(entry.target, entry.pos))
        }
        End::Fault(kind, pos) => Ok(Outcome::Fault(kind, pos)),
    }
}

/// The outcome of a run, where memory didn't run out.
pub fn outcome_at(
    alloc: Global,
    code: &Code,
    m: &Machine,
    end: Result<End, AllocError>,
) -> Result<Outcome, AllocError>
    requires { HasEnd code.now.tables m.now end }
    ensures { IfOk result (GivesEnd code.now.tables m.now end) }
{
    match end {
        Ok(end) => outcome_of(alloc, code, m, end),
        Err(_) => Err(AllocError),
    }
}
