// What instructions of calls lead to.
ghost use Rattle.std.specs.Prelude.{◌≡◌, ◌<◌, ◌+◌, ◌^◌, ◌&&◌, [], false, map, not, replicate, reverse, IfOk};
ghost use Rattle.cat_value.specs.Inputs.{must_be_given};
ghost use Rattle.cat_scope.specs.Names.{AllHave, scope_items};
ghost use Rattle.cat_code.specs.Places.{function_places};
ghost use Rattle.cat_code.specs.Wanted.{are_passed};
ghost use Rattle.cat_verify_tables.specs.TableWords.{numbered};
ghost use Rattle.cat_verify_shapes.specs.inside.Senses.{IsLow};
ghost use Rattle.cat_verify_shapes.specs.inside.Taking.{StandFor, TakesAll, is_bare};
ghost use Rattle.cat_code.specs.declared.instr.Instr.TheVariants as instr;
ghost use Rattle.cat_code.specs.Flow.{flow};
ghost use Rattle.cat_verify_shapes.specs.inside.Told.{Tells};

use crate::Owner;
use crate::forms::Forms;
use crate::leads::{Leads, Stuck, own_pending, pop_as, push};
use crate::lookups::{function_item, result_form, slot_form};
use crate::shape::{Flags, PendingShape, Shape, mark};
use cat_code::Tables;
use cat_pos::{List, Numbers};
use cat_value::{Decls, ItemDecl, Ty};
use cat_verify_tables::FunctionPlace;
use std::alloc::{AllocError, Global};

/// So many flags that don't stand.
fn no_flags(alloc: Global, count: usize) -> Result<Flags, AllocError>
    ensures { IfOk result (λ flags. flags ≡ replicate count false) }
{
    let mut flags = List::new(alloc);
    for _ in 0..count {
        flags.push(false)?;
    }
    Ok(flags)
}

/// The types of parameters.
fn params_forms(decls: &Decls, forms: &Forms, params: &[Ty]) -> Result<Numbers, AllocError>
    requires { AllHave (IsLow decls.now) params.now }
    ensures { IfOk result (λ numbers. StandFor decls.now forms.now numbers params.now) }
{
    let mut numbers = List::new(forms.alloc);
    for ty in params {
        numbers.push(forms.of_ty(decls, ty)?)?;
    }
    Ok(numbers)
}

/// Pops operands of these types, the last of which is on top.
fn pop_params(shape: &mut Shape, params: &[u32]) -> bool
    ensures { TakesAll shape.old shape.new (reverse params.now) result }
{
    let mut left = params.len();
    while left > 0 {
        left -= 1;
        if !pop_as(shape, params[left]) {
            return false;
        }
    }
    true
}

pub(crate) fn call(
    tables: &Tables,
    functions: &[FunctionPlace],
    forms: &Forms,
    place: usize,
    mut shape: Shape,
    function: u32,
    count: u32,
) -> Result<Leads, Stuck>
    requires functions { functions.now ≡ map numbered (function_places tables.now.decls) }
    requires within { place + 1 < 2 ^ 64 }
    ensures { Tells tables.now forms.now result (flow tables.now [] (instr.Call function count) place) shape }
{
    let decls = tables.decls.get();
    let Some(&entry) = tables.functions.get(function as usize) else {
        return Err(Stuck::Bad);
    };
    let Some(declared) = functions.get(function as usize) else {
        return Err(Stuck::Bad);
    };
    let Some(item) = function_item(decls, functions, function) else {
        return Err(Stuck::Bad);
    };
    if declared.scope != shape.owner.scope {
        return Err(Stuck::Bad);
    }
    if item.params.len() != count as usize {
        return Err(Stuck::Bad);
    }
    let locals = params_forms(decls, forms, item.params.as_slice())?;
    if !pop_params(&mut shape, locals.as_slice()) {
        return Err(Stuck::Bad);
    }
    let owner = Owner {
        scope: declared.scope,
        function: Some(function),
    };
    let filled = List::from_slice(forms.alloc, shape.filled.as_slice())?;
    let inner = Shape::entered(forms.alloc, owner, locals, filled);
    let result = forms.of_ty(decls, &item.ty)?;
    shape.operands.push(result)?;
    Ok(Leads::Two(place + 1, shape, entry as usize, inner))
}

pub(crate) fn scope(
    tables: &Tables,
    forms: &Forms,
    place: usize,
    mut shape: Shape,
    scope: u32,
) -> Result<Leads, Stuck>
    requires { place + 1 < 2 ^ 64 }
    ensures { Tells tables.now forms.now result (flow tables.now [] (instr.Scope scope) place) shape }
{
    let Some(declared) = tables.decls.get().scopes.get(scope as usize) else {
        return Err(Stuck::Bad);
    };
    let passed = no_flags(forms.alloc, declared.items.len())?;
    shape.pending.push(PendingShape { scope, passed })?;
    Ok(Leads::One(place + 1, shape))
}

pub(crate) fn pass(
    tables: &Tables,
    forms: &Forms,
    place: usize,
    mut shape: Shape,
    slot: u32,
) -> Result<Leads, Stuck>
    requires { place + 1 < 2 ^ 64 }
    ensures { Tells tables.now forms.now result (flow tables.now [] (instr.Pass slot) place) shape }
{
    if own_pending(&shape) < 1 {
        return Err(Stuck::Bad);
    }
    let Some(frame) = shape.pending.pop() else {
        return Err(Stuck::Bad);
    };
    let PendingShape { scope, mut passed } = frame;
    let Some(form) = slot_form(tables, forms, scope, slot)? else {
        return Err(Stuck::Bad);
    };
    if !pop_as(&mut shape, form) {
        return Err(Stuck::Bad);
    }
    mark(&mut passed, slot as usize);
    shape.pending.push(PendingShape { scope, passed })?;
    Ok(Leads::One(place + 1, shape))
}

/// Whether an item has to be passed, and isn't.
fn lacks(item: &ItemDecl, passed: bool) -> bool
    ensures { result ≡ (must_be_given item.now.kind && not passed) }
{
    item.kind.must_be_given() && !passed
}

/// Whether each input is passed.
fn are_passed(items: &[ItemDecl], passed: &[bool]) -> bool
    ensures { result ≡ are_passed items.now passed.now }
{
    if passed.len() < items.len() {
        return false;
    }
    for (at, item) in items.iter().enumerate() {
        if lacks(item, passed[at]) {
            return false;
        }
    }
    true
}

/// Whether each input of a pending scope is passed.
fn is_ready(decls: &Decls, frame: &PendingShape) -> bool
    ensures { result ≡ are_passed (scope_items decls.now frame.now.scope) frame.now.passed }
{
    match decls.scopes.get(frame.scope as usize) {
        Some(scope) => are_passed(scope.items.as_slice(), frame.passed.as_slice()),
        None => true,
    }
}

pub(crate) fn enter(
    tables: &Tables,
    forms: &Forms,
    place: usize,
    mut shape: Shape,
) -> Result<Leads, Stuck>
    requires { place + 1 < 2 ^ 64 }
    ensures { Tells tables.now forms.now result (flow tables.now [] instr.Enter place) shape }
{
    if own_pending(&shape) < 1 {
        return Err(Stuck::Bad);
    }
    let Some(frame) = shape.pending.pop() else {
        return Err(Stuck::Bad);
    };
    if !is_ready(tables.decls.get(), &frame) {
        return Err(Stuck::Bad);
    }
    let outputs = forms.of_outputs(frame.scope)?;
    Ok(push(place, shape, outputs)?)
}

/// Whether nothing is open.
fn is_bare(shape: &Shape) -> bool
    ensures { result ≡ is_bare shape.now }
{
    shape.operands.len() == 0
        && shape.defaults.len() == 0
        && shape.loops.len() == 0
        && shape.pending.len() == 0
}

pub(crate) fn leave(
    tables: &Tables,
    functions: &[FunctionPlace],
    forms: &Forms,
    place: usize,
    mut shape: Shape,
) -> Result<Leads, Stuck>
    requires { functions.now ≡ map numbered (function_places tables.now.decls) }
    ensures { Tells tables.now forms.now result (flow tables.now [] instr.Return place) shape }
{
    let Some(result) = result_form(tables, functions, forms, shape.owner)? else {
        return Err(Stuck::Bad);
    };
    if !pop_as(&mut shape, result) {
        return Err(Stuck::Bad);
    }
    if !is_bare(&shape) {
        return Err(Stuck::Bad);
    }
    Ok(Leads::Nowhere)
}
