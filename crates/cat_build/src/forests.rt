// The forests of the exceptions of each scope, or a fault of the first kind that stands in any.
ghost use Rattle.std.specs.Prelude.{◌≡◌, ◌+◌, ◌<◌, ◌≤◌, length, IfOk, IfErr};
ghost use Rattle.cat_pos.specs.declared.limits.TheConstants.{ENTRIES_BOUND};
ghost use Rattle.cat_scope.specs.Names.{AllHave};
ghost use Rattle.cat_build.specs.Accepted.{IsProgramIn};
ghost use Rattle.cat_build.specs.Causes.{HasCause};
ghost use Rattle.cat_build.specs.Codes.{exception_refusal};
ghost use Rattle.cat_build.specs.inside.Forests.{AreForestsTo, StandsFirst, first_named, kind_place};

use crate::code::{BuildRefusal, FaultCode};
use cat_except::{ExceptRefusal, forest};
use cat_pos::{List, Piece};
use cat_scope::{Forest, Program};
use cat_value::declarations_are_sound;
use std::alloc::Global;

pub type Forests = List<Forest>;

/// The refusal that one of exceptions is.
fn refusal_of(refusal: ExceptRefusal) -> BuildRefusal
    ensures { result ≡ exception_refusal refusal }
{
    match refusal {
        ExceptRefusal::LabelUnknown(pos) => BuildRefusal::Refused(FaultCode::LabelUnknown, pos),
        ExceptRefusal::LabelSplit(pos) => BuildRefusal::Refused(FaultCode::LabelSplit, pos),
        ExceptRefusal::ExceptionAmbiguous(pos) => {
            BuildRefusal::Refused(FaultCode::ExceptionAmbiguous, pos)
        }
        ExceptRefusal::ExceptionCycle(pos) => BuildRefusal::Refused(FaultCode::ExceptionCycle, pos),
        ExceptRefusal::TooMany(pos) => BuildRefusal::Refused(FaultCode::TooMany, pos),
        ExceptRefusal::Memory => BuildRefusal::Memory,
    }
}

/// The place of a refusal's kind among the kinds, in the order in which they are named.
fn kind_place(refusal: ExceptRefusal) -> u32
    ensures { result ≡ kind_place refusal }
{
    match refusal {
        ExceptRefusal::Memory => 0,
        ExceptRefusal::LabelUnknown(_) => 1,
        ExceptRefusal::LabelSplit(_) => 2,
        ExceptRefusal::ExceptionAmbiguous(_) => 3,
        ExceptRefusal::ExceptionCycle(_) => 4,
        ExceptRefusal::TooMany(_) => 5,
    }
}

/// Of two refusals the one whose kind is named first.
fn first_named(one: ExceptRefusal, other: ExceptRefusal) -> ExceptRefusal
    ensures { result ≡ first_named one other }
{
    if kind_place(other) < kind_place(one) {
        other
    } else {
        one
    }
}

/// A refusal that is named first of all scopes up to one, where this one is of those in front of it.
fn with_scope(alloc: Global, program: &Program, scope: u32, refusal: ExceptRefusal) -> ExceptRefusal
    requires few { AllHave (λ body. length body.defs < ENTRIES_BOUND) program.now.bodies }
    requires within { scope < length program.now.bodies }
    requires first { StandsFirst scope program.now refusal }
    ensures { StandsFirst (scope + 1) program.now result }
{
    match forest(alloc, program, scope) {
        Ok(_forest) => refusal,
        Err(other) => first_named(refusal, other),
    }
}

/// A refusal that is named first of all scopes, where this one is of those in front of one.
fn first_of_all(
    alloc: Global,
    program: &Program,
    start: usize,
    refusal: ExceptRefusal,
) -> ExceptRefusal
    requires few { AllHave (λ body. length body.defs < ENTRIES_BOUND) program.now.bodies }
    requires counted { length program.now.bodies < ENTRIES_BOUND }
    requires start { start ≤ length program.now.bodies }
    requires first { StandsFirst start program.now refusal }
    ensures { StandsFirst (length program.now.bodies) program.now result }
{
    let mut first = refusal;
    for scope in start..program.bodies.len() {
        first = with_scope(alloc, program, scope as u32, first);
    }
    first
}

/// The forest of each scope. Where one has none, the later ones are looked at too, since a fault of an earlier kind may
/// stand there.
fn forests_in(alloc: Global, program: &Program) -> Result<Forests, ExceptRefusal>
    requires few { AllHave (λ body. length body.defs < ENTRIES_BOUND) program.now.bodies }
    requires counted { length program.now.bodies < ENTRIES_BOUND }
    ensures forests { IfOk result (AreForestsTo (length program.now.bodies) program.now) }
    ensures cause { IfErr result (StandsFirst (length program.now.bodies) program.now) }
{
    let mut forests = List::new(alloc);
    for scope in 0..program.bodies.len() {
        let forest = match forest(alloc, program, scope as u32) {
            Ok(forest) => forest,
            Err(refusal) => return Err(first_of_all(alloc, program, scope + 1, refusal)),
        };
        forests.push(forest)?;
    }
    Ok(forests)
}

/// The forest of each scope of the program of some pieces.
#[tactic(auto, using(crate::proofs::ForestSteps::steps))]
pub fn forests_of(
    alloc: Global,
    pieces: &[Piece],
    program: &Program,
) -> Result<Forests, BuildRefusal>
    requires program { IsProgramIn pieces.now program.now }
    requires few { AllHave (λ body. length body.defs < ENTRIES_BOUND) program.now.bodies }
    ensures forests { IfOk result (AreForestsTo (length program.now.bodies) program.now) }
    ensures cause { IfErr result (HasCause pieces.now) }
{
    declarations_are_sound(program.decls());
    match forests_in(alloc, program) {
        Ok(forests) => Ok(forests),
        Err(refusal) => Err(refusal_of(refusal)),
    }
}
