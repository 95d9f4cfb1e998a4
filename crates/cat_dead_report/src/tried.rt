// Runs on the inputs of leaves.
ghost use Rattle.std.specs.Prelude.{◌≡◌, Some, IfOk};
ghost use Rattle.cat_machine.specs.Running.{GivesOutcome, IsGiven, Logs};
ghost use Rattle.cat_dead_report.specs.RunLines.{line_by, line_in};
ghost use Rattle.cat_dead_report.specs.inside.Faultless.{is_sure};
ghost use Rattle.cat_dead_report.specs.inside.Said.{IsWonIn};
ghost use Rattle.cat_dead_report.specs.inside.Scenes.{IsScene};

use crate::deciders::has_decider;
use crate::deciding::winners_of_faultless_targets_decide;
use crate::line::DeadLine;
use crate::scene::TargetScene;
use cat_audit::undecided_at;
use cat_audit_sound::input_of;
use cat_code::Code;
use cat_machine::{Log, execute_logged};
use cat_pool::Pool;
use cat_pos::Pos;
use cat_region::Region;
use cat_sound::programs_go_on;
use cat_value::{Input, Outcome};
use std::alloc::{AllocError, Global};

/// What a run gives, and what decided in it. The pool has no more nodes than before.
fn run_logged(
    alloc: Global,
    code: &Code,
    scope: u32,
    input: &Input,
    pool: &mut Pool,
) -> Result<(Outcome, Log), AllocError>
    requires { ∥ IsGiven code.now scope input.now ∥₁ }
    ensures outcome { IfOk result (λ made. GivesOutcome code.now scope input.now made.0) }
    ensures log { IfOk result (λ made. Logs code.now scope input.now made.1) }
    ensures clean { pool.new ≡ pool.old }
{
    let mark = pool.mark();
    let made = execute_logged(alloc, code, scope, input, pool);
    pool.release(mark);
    made
}

/// The line by whether the definition decides in the run, on what the region hangs, the input and the outcome.
fn line_by(decides: bool, at: Option<Pos>, input: Input, outcome: Outcome) -> DeadLine
    ensures { result ≡ line_by decides at input outcome }
{
    if decides {
        return DeadLine::Decides(input);
    }
    match at {
        None => DeadLine::Masked(input, outcome),
        Some(at) => DeadLine::Derived(at, input, outcome),
    }
}

/// Whether it is known without a run that what wins in a region decides: its target is faultless, and the region hangs
/// on nothing beside the inputs.
fn is_sure(faultless: bool, at: Option<Pos>) -> bool
    ensures { result ≡ is_sure faultless at }
{
    match at {
        None => faultless,
        Some(_) => false,
    }
}

/// What a run on the input of a region says of the definition of the target that wins there, and stands there. It costs
/// the making of that input, and the run where it isn't known without one.
pub(crate) fn leaf_line(
    here: &TargetScene,
    pool: &mut Pool,
    pos: Pos,
    region: Region,
) -> Result<DeadLine, AllocError>
    requires scene { IsScene here.now }
    requires won { IsWonIn here.now.table.now here.now.target.now pos region }
    ensures { IfOk result (λ line.
        line_in here.now.program.now here.now.table.now here.now.target.now pos region ≡ Some line) }
{
    winners_of_faultless_targets_decide(here.program, here.table);
    programs_go_on(here.program);
    let input = input_of(here.alloc, here.table, here.program.decls(), &region)?;
    let at = undecided_at(here.table, here.number, region);
    if is_sure(here.faultless, at) {
        return Ok(DeadLine::Decides(input));
    }
    let (outcome, log) = run_logged(here.alloc, here.code, here.table.scope, &input, pool)?;
    let decides = has_decider(&here.code.tables, log.as_slice(), here.target.target, pos);
    Ok(line_by(decides, at, input, outcome))
}
