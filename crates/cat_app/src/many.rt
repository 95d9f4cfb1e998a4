// The outcomes of a scope on many inputs, a line each.
ghost use Rattle.std.specs.Prelude.{◌≡◌, ◌<◌, ℕ, List, IfOk, Some, length, string_bytes};
ghost use Rattle.cat_build.specs.Built.{IsBuiltOf};
ghost use Rattle.cat_machine.specs.Running.{constant_values};
ghost use Rattle.cat_app.specs.Many.{element_line};
ghost use Rattle.cat_app.specs.inside.Reading.{AreRead, IsReadInput, PutsAtOnce, PutsEach};

use crate::Status;
use crate::ran::tell;
use crate::reply::Reply;
use crate::texts::refuse_input;
use cat_build::Built;
use cat_io::{Gathered, Sink};
use cat_json::{InputRefusal, ReadInputs};
use cat_machine::Loaded;
use cat_value::Input;
use cat_weave::Source;
use std::alloc::{AllocError, Global};

/// A scope of an accepted source, and what it is to be run on.
#[derive(Drop)]
pub struct ManyInputs {
    pub source: Source,
    pub built: Built,
    pub scope: u32,
    pub inputs: ReadInputs,
}

/// What a run writes on one element alone.
fn reply_on(
    alloc: Global,
    source: &Source,
    built: &Built,
    scope: u32,
    read: Result<Input, InputRefusal>,
    loaded: &mut Loaded,
) -> Result<Reply, AllocError>
    requires built { IsBuiltOf source.now.pieces built.now }
    requires scope { scope < length built.now.program.decls.scopes }
    requires read { IsReadInput built.now.program.decls scope read }
    requires constants { loaded.old ≡ constant_values built.now.code.tables.constants }
    ensures line { IfOk result (λ reply.
        element_line built.now.program scope source.now.files read ≡ Some (string_bytes reply.text)) }
    ensures clean { loaded.new ≡ loaded.old }
{
    match read {
        Ok(input) => {
            let outcome = loaded.execute(alloc, &built.code, scope, &input)?;
            tell(alloc, &source.files, built.program.decls(), scope, &outcome)
        }
        Err(refusal) => refuse_input(alloc, refusal),
    }
}

// Puts the lines that are still gathered, and ends so.
fn put_rest<K: Sink>(mut gathered: Gathered, sink: &mut K, status: Status) -> Status
    ensures { PutsAtOnce gathered status (K.state sink.old) (K.state sink.new) result }
{
    match gathered.put_all(sink) {
        Ok(()) => status,
        Err(_) => Status::WriteFault,
    }
}

/// Puts the lines of the elements, up to 64 KiB of whole ones at once, over one pool that has the constants.
/// Where memory runs out, the lines that were made before are put.
pub fn put_lines<K: Sink>(alloc: Global, many: ManyInputs, sink: &mut K) -> Status
    requires built { IsBuiltOf many.source.pieces many.built }
    requires scope { many.scope < length many.built.program.decls.scopes }
    requires read { (extra : List ℕ) × AreRead many.built.program.decls many.scope extra many.inputs }
    ensures { PutsEach many.built.program many.scope many.source.files many.inputs
        (K.state sink.old) (K.state sink.new) result }
{
    let ManyInputs {
        source,
        built,
        scope,
        inputs,
    } = many;
    let Ok(mut loaded) = Loaded::new(alloc, &built.code) else {
        return Status::Memory;
    };
    let mut gathered = Gathered::new(alloc);
    for read in inputs.into_vec() {
        let Ok(reply) = reply_on(alloc, &source, &built, scope, read, &mut loaded) else {
            return put_rest(gathered, sink, Status::Memory);
        };
        if gathered.add(reply.text.as_bytes(), sink).is_err() {
            return Status::WriteFault;
        }
    }
    put_rest(gathered, sink, Status::Fine)
}
