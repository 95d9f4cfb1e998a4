// Which scope or function calls which, by number, and an order of them, callers first.
ghost use Rattle.std.specs.Prelude.{◌≡◌, ◌<◌, true, length, IfOk, IfErr};
ghost use Rattle.cat_pos.specs.declared.limits.TheConstants.{ENTRIES_BOUND};
ghost use Rattle.cat_scope.specs.Names.{IsOneOf};
ghost use Rattle.cat_code.specs.Jumps.{is_within};
ghost use Rattle.cat_verify.specs.inside.CallNumbers.{owner_count, AreMarked, called_number, call_number, is_call};
ghost use Rattle.cat_verify.specs.inside.CallNumbers.{calls_in, AreCallers, IsCallPlace, IsInOrder, RoundCause};

use crate::VerifyRefusal;
use crate::buckets::{Member, in_buckets};
use crate::stamps::Stamps;
use cat_code::{Instr, Tables};
use cat_depend::next_on_cycle;
use cat_order::{OrderRefusal, order};
use cat_pos::{List, Numbers};
use std::alloc::{AllocError, Global};

/// The number of what an instruction calls: functions are numbered behind scopes.
fn called_number(tables: &Tables, count: usize, instr: Instr) -> Option<u32>
    requires counted { owner_count tables.now < ENTRIES_BOUND }
    requires within { is_within tables.now count instr ≡ true }
    ensures { result ≡ called_number (length tables.now.scopes) instr }
{
    match instr {
        Instr::Scope(scope) => Some(scope),
        Instr::Call(function, _) => Some(tables.scopes.len() as u32 + function),
        _ => None,
    }
}

/// What an instruction calls that belongs to one alone, with the caller as a number of that bucket.
fn call_number(tables: &Tables, count: usize, stamps: Stamps, instr: Instr) -> Option<Member>
    requires counted { owner_count tables.now < ENTRIES_BOUND }
    requires within { is_within tables.now count instr ≡ true }
    ensures { result ≡ call_number (length tables.now.scopes) stamps instr }
{
    let Stamps::One(number) = stamps else {
        return None;
    };
    let Some(bucket) = called_number(tables, count, instr) else {
        return None;
    };
    Some(Member { bucket, number })
}

fn calls_in(
    alloc: Global,
    tables: &Tables,
    code: &[Instr],
    marks: &[Stamps],
) -> Result<List<Member>, AllocError>
    requires { AreMarked tables.now code.now marks.now }
    ensures { IfOk result (λ calls. calls ≡ calls_in tables.now code.now marks.now) }
{
    let mut calls = List::new(alloc);
    for (at, &instr) in code.iter().enumerate() {
        let Some(call) = call_number(tables, code.len(), marks[at], instr) else {
            continue;
        };
        calls.push(call)?;
    }
    Ok(calls)
}

fn is_call(call: Option<Member>, caller: u32, called: u32) -> bool
    ensures { result ≡ is_call call caller called }
{
    match call {
        Some(call) => call.number == caller && call.bucket == called,
        None => false,
    }
}

/// The first instruction of one that calls another.
fn place_of(tables: &Tables, code: &[Instr], marks: &[Stamps], caller: u32, called: u32) -> usize
    requires marked { AreMarked tables.now code.now marks.now }
    requires call { IsOneOf (record { bucket = called; number = caller }) (calls_in tables.now code.now marks.now) }
    ensures { IsCallPlace tables.now code.now marks.now caller called result }
{
    for (at, &instr) in code.iter().enumerate() {
        let call = call_number(tables, code.len(), marks[at], instr);
        if is_call(call, caller, called) {
            return at;
        }
    }
    unreachable!()
}

/// The callers of each scope and each function.
fn callers_of(
    alloc: Global,
    tables: &Tables,
    code: &[Instr],
    marks: &[Stamps],
) -> Result<Vec<Numbers>, AllocError>
    requires { AreMarked tables.now code.now marks.now }
    ensures { IfOk result (λ callers. AreCallers tables.now code.now marks.now callers.items) }
{
    let count = tables.scopes.len() + tables.functions.len();
    let calls = calls_in(alloc, tables, code, marks)?;
    in_buckets(alloc, count, calls.as_slice())
}

/// All scopes and functions by their numbers, each in front of those that it calls, or calls that go round.
pub(crate) fn callers_first(
    alloc: Global,
    tables: &Tables,
    code: &[Instr],
    marks: &[Stamps],
) -> Result<Numbers, VerifyRefusal>
    requires { AreMarked tables.now code.now marks.now }
    ensures order { IfOk result (IsInOrder tables.now code.now marks.now) }
    ensures cause { IfErr result (RoundCause tables.now code.now marks.now) }
{
    let callers = callers_of(alloc, tables, code, marks)?;
    match order(alloc, callers.len() as u32, &callers) {
        Ok(order) => Ok(order),
        Err(OrderRefusal::Memory) => Err(VerifyRefusal::Memory),
        Err(OrderRefusal::Cycle(called)) => {
            let caller = next_on_cycle(alloc, &callers, called)?;
            Err(VerifyRefusal::Endless(place_of(tables, code, marks, caller, called)))
        }
    }
}
