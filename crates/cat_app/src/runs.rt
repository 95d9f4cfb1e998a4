// The runs of a drill.
ghost use Rattle.std.specs.Prelude.{◌≡◌, ◌≢◌, ◌<◌, ◌≤◌, IfOk, Some, Ok as OkSeen, length, option_map};
ghost use Rattle.cat_value.specs.declared.outcome.Outcome.TheVariants.{Value as ValueSeen};
ghost use Rattle.cat_machine.specs.ForPrograms.{IsCodeFor};
ghost use Rattle.cat_machine.specs.Running.{constant_values};
ghost use Rattle.cat_app.specs.Limits.{most_bands};
ghost use Rattle.cat_app.specs.Runs.{AreRunsOf, rate_of};
ghost use Rattle.cat_app.specs.inside.Once.{RunsOnce, rate_in};

use crate::source::income_input;
use cat_code::Code;
use cat_json::{InputRefusal, read_input};
use cat_machine::Loaded;
use cat_scope::Program;
use cat_value::{Outcome, Value};
use std::alloc::{AllocError, Global};

/// How many runs a drill has.
pub const RUNS: u32 = 1000;

/// What the runs of a drill come to.
#[derive(Debug, Drop)]
pub enum Ran {
    /// Each has a value: the sum of their rates.
    Sum(i64),
    /// The first that has no value comes to this.
    Stopped(Outcome),
    /// The input of a run isn't read, and all before it have a value.
    Refused(InputRefusal),
}

/// The rate that outputs tell.
fn rate_of(outputs: &[Value]) -> i64
    ensures { result ≡ rate_of outputs.now }
{
    match outputs {
        [Value::Integer(rate)] => rate.get(),
        _ => 0,
    }
}

/// The rate of an outcome that is a value.
fn rate_in(outcome: &Outcome) -> Option<i64>
    ensures { result ≡ rate_in outcome.now }
{
    match outcome {
        Outcome::Value(outputs) => Some(rate_of(outputs.as_slice())),
        _ => None,
    }
}

/// The outcome on an income of so many units, or why its input isn't read.
fn run_once(
    alloc: Global,
    program: &Program,
    code: &Code,
    loaded: &mut Loaded,
    scope: u32,
    units: u32,
) -> Result<Result<Outcome, InputRefusal>, AllocError>
    requires code { ∥ IsCodeFor program.now code.now ∥₁ }
    requires scope { scope < length program.now.decls.scopes }
    requires constants { loaded.old ≡ constant_values code.now.tables.constants }
    ensures ran { IfOk result (RunsOnce program.now scope units) }
    ensures clean { loaded.new ≡ loaded.old }
{
    let text = income_input(alloc, units)?;
    match read_input(alloc, text.as_bytes(), program.decls(), scope) {
        Ok(input) => {
            let outcome = loaded.execute(alloc, code, scope, &input)?;
            Ok(Ok(outcome))
        }
        Err(InputRefusal::Memory) => Err(AllocError),
        Err(refusal) => Ok(Err(refusal)),
    }
}

/// Runs a scope 1,000 times, run j, from 0, on an income of j times the number of bands. A sum that no `i64` holds ends
/// as want of memory.
pub fn run_all(
    alloc: Global,
    program: &Program,
    code: &Code,
    scope: u32,
    bands: u32,
) -> Result<Ran, AllocError>
    requires code { ∥ IsCodeFor program.now code.now ∥₁ }
    requires scope { scope < length program.now.decls.scopes }
    requires bands { bands ≤ most_bands }
    ensures { IfOk result (AreRunsOf program.now scope bands) }
{
    let mut loaded = Loaded::new(alloc, code)?;
    let mut sum = 0i64;
    for run in 0..RUNS {
        let outcome = match run_once(alloc, program, code, &mut loaded, scope, run * bands)? {
            Ok(outcome) => outcome,
            Err(refusal) => return Ok(Ran::Refused(refusal)),
        };
        let Some(rate) = rate_in(&outcome) else {
            return Ok(Ran::Stopped(outcome));
        };
        let Some(more) = sum.checked_add(rate) else {
            return Err(AllocError);
        };
        sum = more;
    }
    Ok(Ran::Sum(sum))
}
