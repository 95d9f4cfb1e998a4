// What is asked of a scope: the source first, and then an audit, a check, a listing, decision tables, what decides and
// what never does, or a run on an input.
ghost use Rattle.std.specs.Prelude.{◌≡◌, ◌≢◌, IfOk, IsTrue, OnErr, Some};
ghost use Rattle.cat_scope.specs.Named.{number_named};
ghost use Rattle.cat_weave.specs.Causes.{AreReadableTogether};
ghost use Rattle.cat_build.specs.Built.{IsBuiltOf};
ghost use Rattle.cat_app.specs.Modes.{runs_scope};
ghost use Rattle.cat_app.specs.Table.{ListsOne};
ghost use Rattle.cat_app.specs.inside.AskedWords.{IsGathered};
ghost use Rattle.cat_app.specs.inside.Reading.{MayWrite};
ghost use Rattle.cat_app.specs.inside.Says.{MayTell};

use crate::asked_words::AskedWords;
use crate::audited::{audited, most_of};
use crate::checked::checked;
use crate::dead::{dead_checked, reported};
use crate::listed::listed;
use crate::many::ManyInputs;
use crate::ran::ran;
use crate::reply::{Reply, ToWrite};
use crate::request::Mode;
use crate::tabled::{all_tables, target_table};
use crate::texts::{no_scope, refuse_file, refuse_gathering, refuse_input, refuse_source};
use cat_build::{BuildRefusal, Built, build};
use cat_io::{Shelf, read_all};
use cat_json::{read_input, read_inputs};
use cat_pos::MOST_INPUT_BYTES;
use cat_weave::{Source, gather};
use std::alloc::{AllocError, Global};

/// Gathers the source first.
pub fn scope_reply<S: Shelf>(
    alloc: Global,
    asked: AskedWords<'_>,
    shelf: &mut S,
) -> Result<ToWrite, AllocError>
    ensures told { (S.state shelf.new).content ≡ (S.state shelf.old).content }
    ensures may { IfOk result (MayWrite asked.entry (S.state shelf.old) (S.state shelf.new)) }
    ensures lists { OnErr result (ListsOne (S.state shelf.old) (S.state shelf.new)) }
{
    match gather(alloc, shelf, asked.file) {
        Ok(source) => source_reply(alloc, asked, source, shelf),
        Err(refusal) => Ok(ToWrite::Text(refuse_gathering(alloc, refusal)?)),
    }
}

/// Builds the source, and looks for the scope.
fn source_reply<S: Shelf>(
    alloc: Global,
    asked: AskedWords<'_>,
    source: Source,
    shelf: &mut S,
) -> Result<ToWrite, AllocError>
    requires readable { AreReadableTogether source.pieces }
    requires gathered { IsGathered asked (S.state shelf.old) source }
    ensures told { (S.state shelf.new).content ≡ (S.state shelf.old).content }
    ensures may { IfOk result (MayWrite asked.entry (S.state shelf.old) (S.state shelf.new)) }
    ensures lists { OnErr result (ListsOne (S.state shelf.old) (S.state shelf.new)) }
{
    let built = match build(alloc, &source) {
        Ok(built) => built,
        Err(BuildRefusal::Refused(code, pos)) => {
            return Ok(ToWrite::Text(refuse_source(alloc, &source.files, code, pos)?));
        }
        Err(BuildRefusal::Memory) => return Err(AllocError),
    };
    match built.program.scope_named(asked.scope) {
        Some(scope) => accepted_reply(alloc, asked, source, built, scope, shelf),
        None => Ok(ToWrite::Text(no_scope(alloc, asked.scope)?)),
    }
}

/// What is to be written, once the source is accepted and its scope found.
fn accepted_reply<S: Shelf>(
    alloc: Global,
    asked: AskedWords<'_>,
    source: Source,
    built: Built,
    scope: u32,
    shelf: &mut S,
) -> Result<ToWrite, AllocError>
    requires gathered { IsGathered asked (S.state shelf.old) source }
    requires built { IsBuiltOf source.pieces built }
    requires named { number_named asked.scope.now 0 built.program.decls.scopes ≡ Some scope }
    ensures told { (S.state shelf.new).content ≡ (S.state shelf.old).content }
    ensures may { IfOk result (MayWrite asked.entry (S.state shelf.old) (S.state shelf.new)) }
    ensures lists { OnErr result (ListsOne (S.state shelf.old) (S.state shelf.new)) }
{
    match asked.mode {
        Mode::Many => read_many(alloc, asked, source, built, scope, shelf),
        _ => Ok(ToWrite::Text(answer_for(alloc, asked, &source, &built, scope, shelf)?)),
    }
}

/// Reads the array of inputs.
fn read_many<S: Shelf>(
    alloc: Global,
    asked: AskedWords<'_>,
    source: Source,
    built: Built,
    scope: u32,
    shelf: &mut S,
) -> Result<ToWrite, AllocError>
    requires gathered { IsGathered asked (S.state shelf.old) source }
    requires built { IsBuiltOf source.pieces built }
    requires named { number_named asked.scope.now 0 built.program.decls.scopes ≡ Some scope }
    requires mode { asked.mode ≡ Mode.Many }
    ensures told { (S.state shelf.new).content ≡ (S.state shelf.old).content }
    ensures may { IfOk result (MayWrite asked.entry (S.state shelf.old) (S.state shelf.new)) }
    ensures lists { OnErr result (ListsOne (S.state shelf.old) (S.state shelf.new)) }
{
    let extra = match read_all(alloc, shelf, asked.extra, MOST_INPUT_BYTES) {
        Ok(bytes) => bytes,
        Err(fault) => return Ok(ToWrite::Text(refuse_file(alloc, asked.extra, fault)?)),
    };
    match read_inputs(alloc, &extra, built.program.decls(), scope) {
        Ok(inputs) => Ok(ToWrite::Lines(ManyInputs {
            source,
            built,
            scope,
            inputs,
        })),
        Err(refusal) => Ok(ToWrite::Text(refuse_input(alloc, refusal)?)),
    }
}

/// Does what is asked, once the source is accepted and its scope found.
fn answer_for<S: Shelf>(
    alloc: Global,
    asked: AskedWords<'_>,
    source: &Source,
    built: &Built,
    scope: u32,
    shelf: &mut S,
) -> Result<Reply, AllocError>
    requires gathered { IsGathered asked (S.state shelf.old) source.now }
    requires built { IsBuiltOf source.now.pieces built.now }
    requires named { number_named asked.scope.now 0 built.now.program.decls.scopes ≡ Some scope }
    requires one { asked.mode ≢ Mode.Many }
    ensures told { (S.state shelf.new).content ≡ (S.state shelf.old).content }
    ensures may { IfOk result (MayTell asked.entry (S.state shelf.old) (S.state shelf.new)) }
    ensures lists { OnErr result (ListsOne (S.state shelf.old) (S.state shelf.new)) }
{
    match asked.mode {
        Mode::Run | Mode::EmitRun | Mode::Trace => run_scope(
            alloc, asked, source, built, scope, shelf,
        ),
        Mode::Check => check_scope(alloc, asked, source, built, scope, shelf),
        Mode::Audit => audited(alloc, source, built, scope, most_of(asked.cases)),
        Mode::Emit => listed(alloc, source, built),
        Mode::AllTables => all_tables(alloc, source, built, scope, most_of(asked.cases)),
        Mode::OneTable => target_table(
            alloc,
            source,
            built,
            scope,
            most_of(asked.cases),
            asked.extra,
        ),
        Mode::Dead => reported(alloc, source, built, scope, most_of(asked.cases)),
        Mode::DeadCheck => check_dead_scope(alloc, asked, source, built, scope, shelf),
        Mode::Many => unreachable!(),
    }
}

/// Reads the input, and runs the scope on it.
fn run_scope<S: Shelf>(
    alloc: Global,
    asked: AskedWords<'_>,
    source: &Source,
    built: &Built,
    scope: u32,
    shelf: &mut S,
) -> Result<Reply, AllocError>
    requires gathered { IsGathered asked (S.state shelf.old) source.now }
    requires built { IsBuiltOf source.now.pieces built.now }
    requires named { number_named asked.scope.now 0 built.now.program.decls.scopes ≡ Some scope }
    requires mode { IsTrue (runs_scope asked.mode) }
    ensures told { (S.state shelf.new).content ≡ (S.state shelf.old).content }
    ensures may { IfOk result (MayTell asked.entry (S.state shelf.old) (S.state shelf.new)) }
    ensures lists { OnErr result (ListsOne (S.state shelf.old) (S.state shelf.new)) }
{
    let extra = match read_all(alloc, shelf, asked.extra, MOST_INPUT_BYTES) {
        Ok(bytes) => bytes,
        Err(fault) => return refuse_file(alloc, asked.extra, fault),
    };
    match read_input(alloc, &extra, built.program.decls(), scope) {
        Ok(input) => ran(alloc, asked.mode, source, built, scope, &input),
        Err(refusal) => refuse_input(alloc, refusal),
    }
}

/// Reads the certificate, and checks it.
fn check_scope<S: Shelf>(
    alloc: Global,
    asked: AskedWords<'_>,
    source: &Source,
    built: &Built,
    scope: u32,
    shelf: &mut S,
) -> Result<Reply, AllocError>
    requires gathered { IsGathered asked (S.state shelf.old) source.now }
    requires built { IsBuiltOf source.now.pieces built.now }
    requires named { number_named asked.scope.now 0 built.now.program.decls.scopes ≡ Some scope }
    requires mode { asked.mode ≡ Mode.Check }
    ensures told { (S.state shelf.new).content ≡ (S.state shelf.old).content }
    ensures may { IfOk result (MayTell asked.entry (S.state shelf.old) (S.state shelf.new)) }
    ensures lists { OnErr result (ListsOne (S.state shelf.old) (S.state shelf.new)) }
{
    match read_all(alloc, shelf, asked.extra, MOST_INPUT_BYTES) {
        Ok(bytes) => checked(alloc, source, built, scope, &bytes),
        Err(fault) => refuse_file(alloc, asked.extra, fault),
    }
}

/// Reads the certificate of dead definitions, and checks it.
fn check_dead_scope<S: Shelf>(
    alloc: Global,
    asked: AskedWords<'_>,
    source: &Source,
    built: &Built,
    scope: u32,
    shelf: &mut S,
) -> Result<Reply, AllocError>
    requires gathered { IsGathered asked (S.state shelf.old) source.now }
    requires built { IsBuiltOf source.now.pieces built.now }
    requires named { number_named asked.scope.now 0 built.now.program.decls.scopes ≡ Some scope }
    requires mode { asked.mode ≡ Mode.DeadCheck }
    ensures told { (S.state shelf.new).content ≡ (S.state shelf.old).content }
    ensures may { IfOk result (MayTell asked.entry (S.state shelf.old) (S.state shelf.new)) }
    ensures lists { OnErr result (ListsOne (S.state shelf.old) (S.state shelf.new)) }
{
    match read_all(alloc, shelf, asked.extra, MOST_INPUT_BYTES) {
        Ok(bytes) => dead_checked(alloc, source, built, scope, &bytes),
        Err(fault) => refuse_file(alloc, asked.extra, fault),
    }
}
