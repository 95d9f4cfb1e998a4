// The runs of scopes: four faces of one run.
ghost use Rattle.std.specs.Prelude.{◌≡◌, IfOk};
ghost use Rattle.cat_pool.specs.Loading.{Extends};
ghost use Rattle.cat_machine.specs.inside.Begun.{AreConstants, IsEmpty, RanIn, RanTo, RunsSo};
ghost use Rattle.cat_machine.specs.Running.{Counts, GivesOutcome, Grows, IsGiven, Logs};

use crate::ending::outcome_at;
use crate::going::{Ended, Going, drive};
use crate::log::Log;
use crate::machine::Machine;
use crate::starting::{empty, load_constants, make_ready};
use cat_code::Code;
use cat_pool::{Pool, Ref};
use cat_pos::List;
use cat_value::{Input, Outcome};
use std::alloc::{AllocError, Global};
use std::mem;

/// The outcome of a run, how many steps it took, at most 2^64 - 1, and what it logged.
#[derive(Drop)]
pub struct Run {
    pub outcome: Outcome,
    pub steps: u64,
    pub log: Log,
}

/// A machine with its nodes behind those of a pool that has the constants runs up to its end, or until memory runs out.
fn run_machine<'a>(
    alloc: Global,
    code: &'a Code,
    scope: u32,
    input: &Input,
    constants: &[Ref],
    machine: Box<Machine>,
) -> Ended<'a>
    requires empty { IsEmpty machine.value }
    requires constants { AreConstants code.now.tables machine.value.pool constants.now }
    requires given { ∥ IsGiven code.now scope input.now ∥₁ }
    ensures { RunsSo code.now scope input.now machine.value.pool result.end result.machine.value result.count }
{
    let mut machine = machine;
    if make_ready(alloc, code, constants, input, &mut machine).is_err() {
        return Ended {
            code,
            place: 0,
            count: 0,
            machine,
            end: Err(AllocError),
        };
    }
    drive(Going {
        code,
        place: *code.tables.scopes.at(scope as usize) as usize,
        count: 0,
        machine,
    })
}

/// What a run comes to, with the machine in which it ended. What it logged is there.
#[derive(Drop)]
pub struct EndedRun {
    pub machine: Box<Machine>,
    pub steps: u64,
    pub outcome: Result<Outcome, AllocError>,
}

/// A run of a machine whose pool has the constants of the code. The pool keeps its nodes.
pub fn run_in(
    alloc: Global,
    code: &Code,
    scope: u32,
    input: &Input,
    constants: &[Ref],
    machine: Box<Machine>,
) -> EndedRun
    requires given { ∥ IsGiven code.now scope input.now ∥₁ }
    requires empty { IsEmpty machine.value }
    requires constants { AreConstants code.now.tables machine.value.pool constants.now }
    ensures ran { IfOk result.outcome (RanIn code.now scope input.now machine.value.pool result.steps
        result.machine.value) }
    ensures kept { Extends machine.value.pool result.machine.value.pool }
{
    let Ended {
        code: _,
        place: _,
        count,
        machine,
        end,
    } = run_machine(alloc, code, scope, input, constants, machine);
    let outcome = outcome_at(alloc, code, &machine, end);
    EndedRun {
        machine,
        steps: count,
        outcome,
    }
}

/// A run over a pool that has the constants of the code. The pool keeps its nodes.
fn run_over(
    alloc: Global,
    code: &Code,
    scope: u32,
    input: &Input,
    constants: &[Ref],
    pool: &mut Pool,
) -> Result<Run, AllocError>
    requires given { ∥ IsGiven code.now scope input.now ∥₁ }
    requires constants { AreConstants code.now.tables pool.old constants.now }
    ensures ran { IfOk result (RanTo code.now scope input.now pool.old pool.new) }
    ensures kept { Extends pool.old pool.new }
{
    let mut machine = Box::new(alloc, empty(alloc))?;
    mem::swap(pool, &mut machine.pool);
    let EndedRun {
        mut machine,
        steps,
        outcome,
    } = run_in(alloc, code, scope, input, constants, machine);
    mem::swap(pool, &mut machine.pool);
    let log = mem::replace(&mut machine.log, List::new(alloc));
    Ok(Run {
        outcome: outcome?,
        steps,
        log,
    })
}

#[tactic(auto, using(crate::proofs::Faces::behind_loaded))]
fn run_scope(
    alloc: Global,
    code: &Code,
    scope: u32,
    input: &Input,
    pool: &mut Pool,
) -> Result<Run, AllocError>
    requires { ∥ IsGiven code.now scope input.now ∥₁ }
    ensures outcome { IfOk result (λ made. GivesOutcome code.now scope input.now made.outcome) }
    ensures count { IfOk result (λ made. Counts code.now scope input.now made.steps) }
    ensures log { IfOk result (λ made. Logs code.now scope input.now made.log) }
    ensures kept { Extends pool.old pool.new }
    ensures grown { IfOk result (λ made. Grows code.now scope input.now pool.old pool.new made.outcome) }
{
    let constants = load_constants(alloc, code, pool)?;
    let run = run_over(alloc, code, scope, input, constants.as_slice(), pool)?;
    Ok(run)
}

/// The outcome that the code gives. The pool keeps its nodes; those of this run stay behind them, also where memory
/// runs out, until they are released.
pub fn execute(
    alloc: Global,
    code: &Code,
    scope: u32,
    input: &Input,
    pool: &mut Pool,
) -> Result<Outcome, AllocError>
    requires { ∥ IsGiven code.now scope input.now ∥₁ }
    ensures outcome { IfOk result (GivesOutcome code.now scope input.now) }
    ensures kept { Extends pool.old pool.new }
    ensures grown { IfOk result (Grows code.now scope input.now pool.old pool.new) }
{
    Ok(run_scope(alloc, code, scope, input, pool)?.outcome)
}

/// The same with the number of steps from the start to the outcome, 2^64 - 1 where there are more.
pub fn execute_counted(
    alloc: Global,
    code: &Code,
    scope: u32,
    input: &Input,
    pool: &mut Pool,
) -> Result<(Outcome, u64), AllocError>
    requires { ∥ IsGiven code.now scope input.now ∥₁ }
    ensures outcome { IfOk result (λ made. GivesOutcome code.now scope input.now made.0) }
    ensures count { IfOk result (λ made. Counts code.now scope input.now made.1) }
    ensures kept { Extends pool.old pool.new }
    ensures grown { IfOk result (λ made. Grows code.now scope input.now pool.old pool.new made.0) }
{
    let Run {
        outcome,
        steps,
        log: _,
    } = run_scope(alloc, code, scope, input, pool)?;
    Ok((outcome, steps))
}

/// The same with the log.
pub fn execute_logged(
    alloc: Global,
    code: &Code,
    scope: u32,
    input: &Input,
    pool: &mut Pool,
) -> Result<(Outcome, Log), AllocError>
    requires { ∥ IsGiven code.now scope input.now ∥₁ }
    ensures outcome { IfOk result (λ made. GivesOutcome code.now scope input.now made.0) }
    ensures log { IfOk result (λ made. Logs code.now scope input.now made.1) }
    ensures kept { Extends pool.old pool.new }
    ensures grown { IfOk result (λ made. Grows code.now scope input.now pool.old pool.new made.0) }
{
    let Run {
        outcome,
        steps: _,
        log,
    } = run_scope(alloc, code, scope, input, pool)?;
    Ok((outcome, log))
}

/// The outcome that the code gives; the pool is as before.
pub fn execute_clean(
    alloc: Global,
    code: &Code,
    scope: u32,
    input: &Input,
    pool: &mut Pool,
) -> Result<Outcome, AllocError>
    requires { ∥ IsGiven code.now scope input.now ∥₁ }
    ensures outcome { IfOk result (GivesOutcome code.now scope input.now) }
    ensures clean { pool.new ≡ pool.old }
{
    let mark = pool.mark();
    let outcome = execute(alloc, code, scope, input, pool);
    pool.release(mark);
    outcome
}
