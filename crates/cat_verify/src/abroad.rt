// Refuses calls of functions of other scopes.
ghost use Rattle.std.specs.Prelude.{◌≡◌, length, slice_get, IfOk, IfErr};
ghost use Rattle.cat_verify.specs.inside.Abroad.{is_abroad, calls_abroad, NoneAbroad, OneAbroad};
ghost use Rattle.cat_verify.specs.inside.Orderly.{IsOrderly, AreCallsHome, AbroadCause};

use crate::VerifyRefusal;
use crate::stamps::{Stamps, stamps_of};
use crate::starts::{scope_starts, scoped_starts};
use cat_code::{Instr, Tables};
use cat_verify_tables::FunctionPlace;
use std::alloc::Global;

/// Whether an instruction belongs to another scope than this, by the scopes that come to it.
fn is_abroad(scopes: Stamps, scope: u32) -> bool
    ensures { result ≡ is_abroad scopes scope }
{
    match scopes {
        Stamps::Nobody => false,
        Stamps::One(one) => one != scope,
        Stamps::Two(_, _) => true,
    }
}

fn calls_abroad(functions: &[FunctionPlace], scopes: Stamps, instr: Instr) -> bool
    ensures { result ≡ calls_abroad functions.now scopes instr }
{
    let Instr::Call(function, _) = instr else {
        return false;
    };
    let Some(place) = functions.get(function as usize) else {
        return false;
    };
    is_abroad(scopes, place.scope)
}

fn refuse_marked(
    functions: &[FunctionPlace],
    code: &[Instr],
    marks: &[Stamps],
) -> Result<(), VerifyRefusal>
    requires { length marks.now ≡ length code.now }
    ensures none { IfOk result (λ _. NoneAbroad functions.now code.now marks.now) }
    ensures cause { IfErr result (OneAbroad functions.now code.now marks.now) }
{
    for (at, &instr) in code.iter().enumerate() {
        if calls_abroad(functions, marks[at], instr) {
            return Err(VerifyRefusal::BadNumber(at));
        }
    }
    Ok(())
}

/// Refuses a call of a function of another scope than that to which the call belongs. Without functions there is none.
pub(crate) fn refuse_abroad(
    alloc: Global,
    tables: &Tables,
    code: &[Instr],
    functions: &[FunctionPlace],
) -> Result<(), VerifyRefusal>
    requires { IsOrderly tables.now code.now functions.now }
    ensures home { IfOk result (λ _. AreCallsHome tables.now code.now) }
    ensures cause { IfErr result (AbroadCause tables.now code.now) }
{
    if tables.functions.len() == 0 {
        return Ok(());
    }
    let starts = scope_starts(alloc, tables)?;
    let calls = scoped_starts(alloc, tables, functions)?;
    let marks = stamps_of(alloc, code, starts.as_slice(), calls.as_slice())?;
    refuse_marked(functions, code, &marks)
}
