//! Builds the gathered pieces of a source into a program, the forests of its exceptions, and its jump code; or tells
//! what is at fault in it.
#![tactic(auto)]

ghost use Rattle.std.specs.Prelude.{IfOk, IfErr};
ghost use Rattle.cat_weave.specs.Causes.{AreReadableTogether};
ghost use Rattle.cat_build.specs.Built.{IsBuiltOf};
ghost use Rattle.cat_build.specs.Causes.{HasCause};

mod code;
mod forests;
mod front;
mod laws;
mod lowered;

pub use crate::forests::Forests;
use crate::forests::forests_of;
use crate::front::program_in;
use crate::lowered::code_of;
use cat_calc::desugar;
use cat_code::Code;
use cat_scope::Program;
use cat_weave::Source;
pub use code::{BuildRefusal, FaultCode};
pub use laws::{
    accepted_programs_are_counted, accepted_programs_have_distinct_names, pieces_have_one_program,
    refused_pieces_are_not_accepted,
};
use std::alloc::Global;

/// A program, the forest of each of its scopes, and its jump code.
#[derive(Drop)]
pub struct Built {
    pub program: Program,
    pub forests: Forests,
    pub code: Code,
}

/// The program of a source, with what it is turned into. Of several faults of one phase any may be named, but that the
/// lexer names the first, and that the parser has one position for a token that is unexpected.
pub fn build(alloc: Global, source: &Source) -> Result<Built, BuildRefusal>
    requires { AreReadableTogether source.now.pieces }
    ensures built { IfOk result (IsBuiltOf source.now.pieces) }
    ensures cause { IfErr result (HasCause source.now.pieces) }
{
    let pieces = source.pieces.as_slice();
    let program = program_in(alloc, pieces)?;
    let forests = forests_of(alloc, pieces, &program)?;
    let calc = desugar(alloc, &program, forests.as_slice())?;
    let code = code_of(alloc, &program, &calc)?;
    Ok(Built {
        program,
        forests,
        code,
    })
}
