// A run of a scope on an input, alone or behind the listing of the code that is run or what decided in it.
ghost use Rattle.std.specs.Prelude.{◌≡◌, ◌<◌, ◌++◌, IfOk, IsTrue, length, string_bytes};
ghost use Rattle.cat_value.specs.Inputs.{IsWellTyped};
ghost use Rattle.cat_listing.specs.Listing.{listing as text_of};
ghost use Rattle.cat_build.specs.Built.{IsBuiltOf};
ghost use Rattle.cat_app.specs.Lines.{status_of};
ghost use Rattle.cat_app.specs.Modes.{runs_scope};
ghost use Rattle.cat_app.specs.Listings.{steps_line};
ghost use Rattle.cat_app.specs.inside.Says.{Says, SaysOutcome, SaysRun};

use crate::reply::Reply;
use crate::{Mode, Status};
use cat_answer::answer_text;
use cat_build::Built;
use cat_listing::listing;
use cat_machine::{execute, execute_counted, execute_logged};
use cat_pool::Pool;
use cat_pos::Files;
use cat_trace::trace_lines;
use cat_value::{Decls, Input, Outcome};
use cat_weave::Source;
use std::alloc::{AllocError, Global};

/// What the scope comes to on the input.
fn answer(
    alloc: Global,
    source: &Source,
    built: &Built,
    scope: u32,
    input: &Input,
) -> Result<Reply, AllocError>
    requires built { IsBuiltOf source.now.pieces built.now }
    requires scope { scope < length built.now.program.decls.scopes }
    requires typed { IsWellTyped built.now.program.decls scope input.now }
    ensures { IfOk result (SaysRun Mode.Run source.now built.now.program scope input.now) }
{
    let mut pool = Pool::new(alloc);
    let outcome = execute(alloc, &built.code, scope, input, &mut pool)?;
    tell(alloc, &source.files, built.program.decls(), scope, &outcome)
}

/// The listing of the code, and the line of a number of steps.
fn code_with_steps(
    alloc: Global,
    source: &Source,
    built: &Built,
    steps: u64,
) -> Result<String, AllocError>
    ensures { IfOk result (λ text. string_bytes text ≡ text_of built.now.code source.now.files ++ steps_line steps) }
{
    let mut text = listing(alloc, &built.code, &source.files)?;
    let line = format!(in alloc; "steps {steps}\n")?;
    text.push_str(line.as_str())?;
    Ok(text)
}

/// A reply with this text in front of its own.
fn behind(front: String, reply: Reply) -> Result<Reply, AllocError>
    ensures { IfOk result (Says reply.status (string_bytes front ++ string_bytes reply.text)) }
{
    let Reply { status, text: rest } = reply;
    let mut text = front;
    text.push_str(rest.as_str())?;
    Ok(Reply { status, text })
}

/// The same behind the listing of the code and the number of its steps.
fn answer_with_code(
    alloc: Global,
    source: &Source,
    built: &Built,
    scope: u32,
    input: &Input,
) -> Result<Reply, AllocError>
    requires built { IsBuiltOf source.now.pieces built.now }
    requires scope { scope < length built.now.program.decls.scopes }
    requires typed { IsWellTyped built.now.program.decls scope input.now }
    ensures { IfOk result (SaysRun Mode.EmitRun source.now built.now.program scope input.now) }
{
    let mut pool = Pool::new(alloc);
    let (outcome, steps) = execute_counted(alloc, &built.code, scope, input, &mut pool)?;
    let front = code_with_steps(alloc, source, built, steps)?;
    let told = tell(alloc, &source.files, built.program.decls(), scope, &outcome)?;
    behind(front, told)
}

/// The same behind what decided each judging that ended.
fn answer_with_trace(
    alloc: Global,
    source: &Source,
    built: &Built,
    scope: u32,
    input: &Input,
) -> Result<Reply, AllocError>
    requires built { IsBuiltOf source.now.pieces built.now }
    requires scope { scope < length built.now.program.decls.scopes }
    requires typed { IsWellTyped built.now.program.decls scope input.now }
    ensures { IfOk result (SaysRun Mode.Trace source.now built.now.program scope input.now) }
{
    let mut pool = Pool::new(alloc);
    let (outcome, log) = execute_logged(alloc, &built.code, scope, input, &mut pool)?;
    let front = trace_lines(
        alloc,
        &built.code,
        &source.files,
        &source.pieces,
        &source.headings,
        &log,
    )?;
    let told = tell(alloc, &source.files, built.program.decls(), scope, &outcome)?;
    behind(front, told)
}

/// Runs the scope on the input, as a mode asks that runs one.
pub fn ran(
    alloc: Global,
    mode: Mode,
    source: &Source,
    built: &Built,
    scope: u32,
    input: &Input,
) -> Result<Reply, AllocError>
    requires mode { IsTrue (runs_scope mode) }
    requires built { IsBuiltOf source.now.pieces built.now }
    requires scope { scope < length built.now.program.decls.scopes }
    requires typed { IsWellTyped built.now.program.decls scope input.now }
    ensures { IfOk result (SaysRun mode source.now built.now.program scope input.now) }
{
    match mode {
        Mode::Run => answer(alloc, source, built, scope, input),
        Mode::EmitRun => answer_with_code(alloc, source, built, scope, input),
        Mode::Trace => answer_with_trace(alloc, source, built, scope, input),
        Mode::Audit
        | Mode::Check
        | Mode::Emit
        | Mode::Many
        | Mode::AllTables
        | Mode::OneTable
        | Mode::Dead
        | Mode::DeadCheck => unreachable!(),
    }
}

/// The line of an outcome, with its status.
pub(crate) fn tell(
    alloc: Global,
    files: &Files,
    decls: &Decls,
    scope: u32,
    outcome: &Outcome,
) -> Result<Reply, AllocError>
    requires { scope < length decls.now.scopes }
    ensures { IfOk result (SaysOutcome decls.now scope files.now outcome.now) }
{
    let mut text = answer_text(alloc, outcome, decls, scope, files)?;
    text.push_str("\n")?;
    let status = ended(outcome);
    Ok(Reply { status, text })
}

fn ended(outcome: &Outcome) -> Status
    ensures { result ≡ status_of outcome.now }
{
    match outcome {
        Outcome::Value(_) => Status::Fine,
        Outcome::Conflict(_, _) => Status::Conflict,
        Outcome::NoValue(_, _) => Status::NoValue,
        Outcome::Fault(_, _) => Status::Fault,
    }
}
