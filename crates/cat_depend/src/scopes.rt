// The scopes that scopes call.
ghost use Rattle.std.specs.Prelude.{◌≡◌, ◌<◌, ◌++◌, [], length, IfOk, IfErr, OnOk};
ghost use Rattle.cat_order.specs.Order.{AreItems, IsOrder};
ghost use Rattle.cat_scope.specs.Orders.{called_by_kind, called_by_items, called_in, once};
ghost use Rattle.cat_depend.specs.Causes.{HasCallCause};
ghost use Rattle.cat_depend.specs.Past.{TellsPast};
ghost use Rattle.cat_depend.specs.Listed.{listed_calls};

use crate::CallRefusal;
use crate::chains::past_longest;
use crate::cycle::next_on_cycle;
use crate::naming::{Wanted, add_definition, add_named};
use cat_order::{OrderRefusal, order, the_order_lists_items, the_order_puts_dependencies_first};
use cat_pos::{ENTRIES_BOUND, List, Numbers};
use cat_scope::{Assertion, Body, Def, SourcePart};
use cat_value::{ItemDecl, Kind};
use std::alloc::{AllocError, Global};
use std::collections::BTreeSet;

/// Each number once, by first appearance.
fn once(alloc: Global, numbers: &[u32]) -> Result<Numbers, AllocError>
    ensures { IfOk result (λ kept. kept ≡ once [] numbers.now) }
{
    let mut seen = BTreeSet::new(alloc);
    let mut kept = List::new(alloc);
    for &number in numbers {
        if !seen.insert(number)? {
            continue;
        }
        kept.push(number)?;
    }
    Ok(kept)
}

/// Adds the scope that an item calls, where it is a called scope.
fn add_by_kind(calls: &mut Numbers, kind: Kind) -> Result<(), AllocError>
    ensures { OnOk result (calls.new ≡ calls.old ++ called_by_kind kind) }
{
    match kind {
        Kind::Called(scope) => calls.push(scope),
        _ => Ok(()),
    }
}

/// Adds the scopes that items call.
fn add_called(calls: &mut Numbers, items: &[ItemDecl]) -> Result<(), AllocError>
    ensures { OnOk result (calls.new ≡ calls.old ++ called_by_items items.now) }
{
    for item in items {
        add_by_kind(calls, item.kind)?;
    }
    Ok(())
}

/// The scopes that a source calls, in its order.
fn all_calls(
    alloc: Global,
    items: &[ItemDecl],
    source: &[SourcePart],
    mut defs: &[Def],
    mut assertions: &[Assertion],
) -> Result<Numbers, AllocError>
    ensures { IfOk result (λ calls. calls ≡ called_in items.now source.now defs.entry.now assertions.entry.now) }
{
    let mut calls = List::new(alloc);
    for part in source {
        match part {
            SourcePart::Declaration => add_called(&mut calls, items)?,
            SourcePart::Condition(condition) => {
                add_named(&mut calls, Wanted::Scopes, condition.get())?;
            }
            SourcePart::Definition => {
                let Some((def, rest)) = defs.split_first() else {
                    continue;
                };
                add_definition(&mut calls, Wanted::Scopes, def)?;
                defs = rest;
            }
            SourcePart::Assertion => {
                let Some((assertion, rest)) = assertions.split_first() else {
                    continue;
                };
                add_named(&mut calls, Wanted::Scopes, assertion.condition.get())?;
                assertions = rest;
            }
        }
    }
    Ok(calls)
}

/// The scopes that a scope calls, each once, by first appearance in its source.
pub fn calls_of(
    alloc: Global,
    items: &[ItemDecl],
    source: &[SourcePart],
    defs: &[Def],
    assertions: &[Assertion],
) -> Result<Numbers, AllocError>
    ensures { IfOk result (λ calls. calls ≡ once [] (called_in items.now source.now defs.now assertions.now)) }
{
    let calls = all_calls(alloc, items, source, defs, assertions)?;
    once(alloc, calls.as_slice())
}

/// The calls that bodies list.
fn listed_calls(alloc: Global, bodies: &[Body]) -> Result<Vec<Numbers>, AllocError>
    ensures { IfOk result (λ calls. calls.items ≡ listed_calls bodies.now) }
{
    let mut calls = Vec::with_capacity(alloc, bodies.len())?;
    for body in bodies {
        calls.push(List::from_slice(alloc, body.calls.as_slice())?)?;
    }
    Ok(calls)
}

/// The scopes of a program, each behind those that it calls; or one that calls another which leads back to it. It
/// takes time in proportion to the calls, and to n log n for n scopes.
pub fn scope_order(alloc: Global, bodies: &[Body]) -> Result<Numbers, CallRefusal>
    requires few { length bodies.now < ENTRIES_BOUND }
    requires scopes { AreItems (listed_calls bodies.now) }
    ensures order { IfOk result (IsOrder (listed_calls bodies.now)) }
    ensures cause { IfErr result (HasCallCause (listed_calls bodies.now)) }
{
    let calls = listed_calls(alloc, bodies)?;
    match order(alloc, bodies.len() as u32, &calls) {
        Ok(listed) => Ok(listed),
        Err(OrderRefusal::Memory) => Err(CallRefusal::Memory),
        Err(OrderRefusal::Cycle(caller)) => {
            let called = next_on_cycle(alloc, &calls, caller)?;
            Err(CallRefusal::Cycle(caller, called))
        }
    }
}

/// A scope that begins a chain of calls of one scope more than a chain may have, and of no more, where there is one.
/// The scopes stand in their order.
pub fn long_scope(alloc: Global, bodies: &[Body], order: &[u32]) -> Result<Option<u32>, AllocError>
    requires { IsOrder (listed_calls bodies.now) order.now }
    ensures { IfOk result (TellsPast (listed_calls bodies.now)) }
{
    the_order_lists_items();
    the_order_puts_dependencies_first();
    let calls = listed_calls(alloc, bodies)?;
    past_longest(alloc, &calls, order)
}
