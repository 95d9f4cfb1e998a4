// The scopes and functions of a listing with their instructions, callers first.
ghost use Rattle.std.specs.Prelude.{◌≡◌, ◌<◌, ◌+◌, length, map, All, IfOk, IfErr};
ghost use Rattle.cat_pos.specs.declared.limits.TheConstants.{ENTRIES_BOUND};
ghost use Rattle.cat_verify_shapes.specs.Owned.{AreOwners};
ghost use Rattle.cat_verify.specs.inside.CallNumbers.{AreMarked};
ghost use Rattle.cat_verify.specs.inside.Stamped.{AreStamps};
ghost use Rattle.cat_verify.specs.inside.Starts.{scope_starts, function_starts};
ghost use Rattle.cat_verify.specs.inside.Buckets.{AreBuckets};
ghost use Rattle.cat_verify.specs.inside.Orderly.{IsOrderly, AreCallsHome, OwnersCause, AreApart};
ghost use Rattle.cat_verify.specs.inside.OwnerNumbers.{owner_at, placed_by, placed_from, with_places, is_shared};
ghost use Rattle.cat_verify.specs.inside.OwnerNumbers.{NoneShared, OneShared};

use crate::VerifyRefusal;
use crate::buckets::{Member, in_buckets};
use crate::calls::callers_first;
use crate::stamps::{Stamps, stamps_of};
use crate::starts::{function_starts, scope_starts};
use cat_code::{Instr, Tables};
use cat_order::{
    a_cycle_leaves_no_order, the_order_lists_items, the_order_puts_dependencies_first,
};
use cat_pos::{List, Numbers};
use cat_verify_shapes::{Owner, OwnerPlaces};
use cat_verify_tables::FunctionPlace;
use std::alloc::{AllocError, Global};

fn is_shared(stamps: Stamps) -> bool
    ensures { result ≡ is_shared stamps }
{
    match stamps {
        Stamps::Two(_, _) => true,
        _ => false,
    }
}

/// Refuses an instruction that belongs to several.
fn refuse_shared(marks: &[Stamps]) -> Result<(), VerifyRefusal>
    ensures none { IfOk result (λ _. NoneShared marks.now) }
    ensures cause { IfErr result (OneShared marks.now) }
{
    for (at, &stamps) in marks.iter().enumerate() {
        if is_shared(stamps) {
            return Err(VerifyRefusal::Endless(at));
        }
    }
    Ok(())
}

/// An instruction among those of the one to which it belongs.
fn placed_by(at: usize, stamps: Stamps) -> Option<Member>
    requires { at < ENTRIES_BOUND }
    ensures { result ≡ placed_by at stamps }
{
    match stamps {
        Stamps::One(bucket) => {
            let number = at as u32;
            Some(Member { bucket, number })
        }
        _ => None,
    }
}

fn placed(alloc: Global, marks: &[Stamps]) -> Result<List<Member>, AllocError>
    requires { length marks.now < ENTRIES_BOUND }
    ensures { IfOk result (λ members. members ≡ placed_from 0 marks.now) }
{
    let mut members = List::new(alloc);
    for (at, &stamps) in marks.iter().enumerate() {
        let Some(member) = placed_by(at, stamps) else {
            continue;
        };
        members.push(member)?;
    }
    Ok(members)
}

/// The scope or function of a number, behind so many scopes.
fn owner_at(scopes: usize, functions: &[FunctionPlace], number: u32) -> Owner
    requires { number < scopes + length functions.now }
    ensures { result ≡ owner_at scopes functions.now number }
{
    let at = number as usize;
    if at < scopes {
        return Owner {
            scope: number,
            function: None,
        };
    }
    let function = at - scopes;
    Owner {
        scope: functions[function].scope,
        function: Some(function as u32),
    }
}

/// Scopes and functions in this order, with their instructions.
fn with_places(
    alloc: Global,
    scopes: usize,
    functions: &[FunctionPlace],
    members: &[Member],
    buckets: &[Numbers],
    listed: &[u32],
) -> Result<List<OwnerPlaces>, AllocError>
    requires buckets { AreBuckets (scopes + length functions.now) members.now buckets.now }
    requires within { All (λ n. n < scopes + length functions.now) listed.now }
    ensures { IfOk result (λ owners. owners ≡ map (with_places scopes functions.now members.now) listed.now) }
{
    let mut owners = List::new(alloc);
    for &number in listed {
        let owner = owner_at(scopes, functions, number);
        let places = Numbers::from_slice(alloc, buckets[number as usize].as_slice())?;
        owners.push(OwnerPlaces { owner, places })?;
    }
    Ok(owners)
}

/// For each instruction to which a run may come the number of the one to which it belongs; none belongs to several.
fn owner_stamps(
    alloc: Global,
    tables: &Tables,
    code: &[Instr],
    functions: &[FunctionPlace],
) -> Result<Vec<Stamps>, VerifyRefusal>
    requires orderly { IsOrderly tables.now code.now functions.now }
    requires home { AreCallsHome tables.now code.now }
    ensures stamps { IfOk result (λ marks.
        AreStamps code.now (scope_starts tables.now) (function_starts tables.now) marks.items) }
    ensures single { IfOk result (λ marks. NoneShared marks.items) }
    ensures cause { IfErr result (OwnersCause tables.now code.now) }
{
    let starts = scope_starts(alloc, tables)?;
    let calls = function_starts(alloc, tables)?;
    let marks = stamps_of(alloc, code, starts.as_slice(), calls.as_slice())?;
    refuse_shared(&marks)?;
    Ok(marks)
}

/// Scopes and functions by their numbers, with their instructions.
fn all_places(
    alloc: Global,
    tables: &Tables,
    code: &[Instr],
    functions: &[FunctionPlace],
    marks: &[Stamps],
    listed: &[u32],
) -> Result<List<OwnerPlaces>, AllocError>
    requires marked { AreMarked tables.now code.now marks.now }
    requires counted { length functions.now ≡ length tables.now.functions }
    requires within { All (λ n. n < length tables.now.scopes + length functions.now) listed.now }
    ensures { IfOk result (λ owners. owners
        ≡ map (with_places (length tables.now.scopes) functions.now (placed_from 0 marks.now)) listed.now) }
{
    let members = placed(alloc, marks)?;
    let scopes = tables.scopes.len();
    let buckets = in_buckets(alloc, scopes + functions.len(), members.as_slice())?;
    with_places(
        alloc,
        scopes,
        functions,
        members.as_slice(),
        &buckets,
        listed,
    )
}

/// All scopes and functions with their instructions, each in front of those that it calls.
pub(crate) fn owners_in_order(
    alloc: Global,
    tables: &Tables,
    code: &[Instr],
    functions: &[FunctionPlace],
) -> Result<List<OwnerPlaces>, VerifyRefusal>
    requires orderly { IsOrderly tables.now code.now functions.now }
    requires home { AreCallsHome tables.now code.now }
    ensures owners { IfOk result (AreOwners tables.now code.now) }
    ensures apart { IfOk result (λ _. AreApart tables.now code.now) }
    ensures cause { IfErr result (OwnersCause tables.now code.now) }
{
    the_order_puts_dependencies_first();
    the_order_lists_items();
    a_cycle_leaves_no_order();
    let marks = owner_stamps(alloc, tables, code, functions)?;
    let listed = callers_first(alloc, tables, code, &marks)?;
    let owners = all_places(alloc, tables, code, functions, &marks, listed.as_slice())?;
    Ok(owners)
}
