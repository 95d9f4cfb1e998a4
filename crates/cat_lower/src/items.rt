// The code of the items of a scope.
ghost use Rattle.std.specs.Prelude.{◌≡◌, ◌++◌, None, Some, OnOk, slice_get};
ghost use Rattle.std.specs.Option.{option_copied};
ghost use Rattle.cat_calc.specs.Reducing.{term_of as of_target};
ghost use Rattle.cat_scope.specs.Names.{scope_items};
ghost use Rattle.cat_code.specs.declared.instr.Instr.TheVariants as instr;
ghost use Rattle.cat_lower.specs.Grown.{Grown, ends_of};
ghost use Rattle.cat_lower.specs.Laying.{over};
ghost use Rattle.cat_lower.specs.Scopes as words;
ghost use Rattle.cat_lower.specs.Told.{scope_standing};

use crate::growing::{fitting, patch, place, put, put_open};
use crate::targets::{emit_context, emit_target};
use crate::{Growing, LoweringScene};
use cat_calc::{CalcScope, DefaultTerm};
use cat_code::{Instr, TargetEntry};
use cat_pos::{List, Numbers};
use cat_value::{ItemDecl, ItemDecls, Kind, Target};
use std::alloc::AllocError;

/// A scope that is lowered: its number, and its terms.
#[derive(Drop)]
pub struct NumberedScope<'a> {
    pub number: u32,
    pub terms: &'a CalcScope,
}

/// The term of a target, where it has one.
fn term_of<'a>(scope: &NumberedScope<'a>, target: Target) -> Option<&'a DefaultTerm>
    ensures { option_copied result ≡ of_target scope.now.terms.now.terms target }
{
    let terms = scope.terms.terms.get(target.item as usize)?;
    match target.inner {
        Some(inner) => terms.inner.get(inner as usize),
        None => Some(&terms.own),
    }
}

/// The target that an item is, or an item of the scope that it calls.
fn entry_of(scope: &NumberedScope, item: u32, inner: Option<u32>, decl: &ItemDecl) -> TargetEntry
    ensures { result ≡ record {
      target = record { scope = scope.now.number; item = item; inner = inner };
      pos = decl.now.pos;
    } }
{
    TargetEntry {
        target: Target {
            scope: scope.number,
            item,
            inner,
        },
        pos: decl.pos,
    }
}

/// The value of a variable or of a function.
fn emit_variable(
    here: &LoweringScene,
    growing: &mut Growing,
    scope: &NumberedScope,
    item: u32,
    decl: &ItemDecl,
) -> Result<(), AllocError>
    ensures { OnOk result (Grown growing.old growing.new
        (words.variable_code (scope_standing here.now scope.now) item decl.now)) }
{
    let entry = entry_of(scope, item, None, decl);
    let term = term_of(scope, entry.target);
    emit_target(
        here,
        growing,
        entry,
        &decl.ty,
        &decl.params,
        decl.condition,
        term,
    )
}

/// A function gives back its value, where the item is one.
fn emit_function(
    here: &LoweringScene,
    growing: &mut Growing,
    scope: &NumberedScope,
    item: u32,
    decl: &ItemDecl,
) -> Result<(), AllocError>
    ensures { OnOk result (Grown growing.old growing.new
        (words.function_code (scope_standing here.now scope.now) item decl.now)) }
{
    emit_variable(here, growing, scope, item, decl)?;
    put(growing, Instr::Return)
}

/// The functions of a scope, and where they begin.
pub fn emit_functions(
    here: &LoweringScene,
    growing: &mut Growing,
    entries: &mut Numbers,
    scope: &NumberedScope,
) -> Result<(), AllocError>
    ensures grown { OnOk result (Grown growing.old growing.new
        (words.functions_code (scope_standing here.now scope.now) 0 here.now.items.now)) }
    ensures entries { OnOk result (entries.new ≡ entries.old
        ++ words.function_entries (scope_standing here.now scope.now) 0 here.now.items.now (ends_of growing.old)) }
{
    for (number, item) in here.items.as_slice().iter().enumerate() {
        if !item.is_function() {
            continue;
        }
        let begin = place(growing)?;
        let function = fitting(number)?;
        entries.push(begin)?;
        emit_function(here, growing, scope, function, item)?;
    }
    Ok(())
}

/// A variable's value is put into its slot; a function has none.
fn emit_stored(
    here: &LoweringScene,
    growing: &mut Growing,
    scope: &NumberedScope,
    item: u32,
    decl: &ItemDecl,
) -> Result<(), AllocError>
    ensures { OnOk result (Grown growing.old growing.new
        (words.stored_code (scope_standing here.now scope.now) item decl.now decl.now.params)) }
{
    if !decl.params.is_empty() {
        return Ok(());
    }
    emit_variable(here, growing, scope, item, decl)?;
    put(growing, Instr::Store(item))
}

/// The same, where no value was given.
fn emit_given(
    here: &LoweringScene,
    growing: &mut Growing,
    scope: &NumberedScope,
    item: u32,
    decl: &ItemDecl,
) -> Result<(), AllocError>
    ensures { OnOk result (Grown growing.old growing.new (over (λ t. instr.Given item t)
        (words.stored_code (scope_standing here.now scope.now) item decl.now decl.now.params))) }
{
    let given = put_open(growing, Instr::Given(item, 0))?;
    emit_stored(here, growing, scope, item, decl)?;
    let end = place(growing)?;
    patch(growing, given, Instr::Given(item, end));
    Ok(())
}

/// An input or a context of a called scope.
fn emit_inner(
    here: &LoweringScene,
    growing: &mut Growing,
    scope: &NumberedScope,
    item: u32,
    decl: &ItemDecl,
    number: u32,
    inner: &ItemDecl,
) -> Result<(), AllocError>
    ensures { OnOk result (Grown growing.old growing.new
        (words.inner_code (scope_standing here.now scope.now) item decl.now number inner.now)) }
{
    let entry = entry_of(scope, item, Some(number), decl);
    let term = term_of(scope, entry.target);
    if !inner.kind.must_be_given() {
        return emit_context(here, growing, entry, &inner.ty, number, term);
    }
    let params = List::new(here.alloc);
    emit_target(
        here,
        growing,
        entry,
        &inner.ty,
        &params,
        inner.condition,
        term,
    )?;
    put(growing, Instr::Pass(number))
}

/// The inputs and contexts of a called scope that has these items.
fn emit_inners(
    here: &LoweringScene,
    growing: &mut Growing,
    scope: &NumberedScope,
    item: u32,
    decl: &ItemDecl,
    inners: &ItemDecls,
) -> Result<(), AllocError>
    ensures { OnOk result (Grown growing.old growing.new
        (words.inner_codes (scope_standing here.now scope.now) item decl.now 0 inners.now)) }
{
    for (number, inner) in inners.as_slice().iter().enumerate() {
        if !inner.kind.may_be_given() {
            continue;
        }
        let given = fitting(number)?;
        emit_inner(here, growing, scope, item, decl, given, inner)?;
    }
    Ok(())
}

/// The same of a scope by its number.
fn emit_given_inners(
    here: &LoweringScene,
    growing: &mut Growing,
    scope: &NumberedScope,
    item: u32,
    decl: &ItemDecl,
    called: u32,
) -> Result<(), AllocError>
    ensures { OnOk result (Grown growing.old growing.new
        (words.inner_codes (scope_standing here.now scope.now) item decl.now 0
        (scope_items here.now.decls.now called))) }
{
    match here.decls.scopes.get(called as usize) {
        Some(called) => emit_inners(here, growing, scope, item, decl, &called.items),
        None => Ok(()),
    }
}

/// A called scope, whose outputs are put into its slot.
fn emit_called(
    here: &LoweringScene,
    growing: &mut Growing,
    scope: &NumberedScope,
    item: u32,
    decl: &ItemDecl,
    called: u32,
) -> Result<(), AllocError>
    ensures { OnOk result (Grown growing.old growing.new
        (words.called_code (scope_standing here.now scope.now) item decl.now called)) }
{
    put(growing, Instr::Scope(called))?;
    emit_given_inners(here, growing, scope, item, decl, called)?;
    put(growing, Instr::Enter)?;
    put(growing, Instr::Store(item))
}

/// An item by its kind: an input is there, and a context may be.
fn emit_kind(
    here: &LoweringScene,
    growing: &mut Growing,
    scope: &NumberedScope,
    item: u32,
    decl: &ItemDecl,
) -> Result<(), AllocError>
    ensures { OnOk result (Grown growing.old growing.new
        (words.kind_code (scope_standing here.now scope.now) item decl.now decl.now.kind)) }
{
    match decl.kind {
        Kind::Input | Kind::InputOutput => Ok(()),
        Kind::Context | Kind::ContextOutput => emit_given(here, growing, scope, item, decl),
        Kind::Called(called) => emit_called(here, growing, scope, item, decl, called),
        Kind::Output | Kind::Internal => emit_stored(here, growing, scope, item, decl),
    }
}

fn emit_item(
    here: &LoweringScene,
    growing: &mut Growing,
    scope: &NumberedScope,
    item: u32,
) -> Result<(), AllocError>
    ensures { OnOk result (Grown growing.old growing.new
        (words.item_code (scope_standing here.now scope.now) item (slice_get here.now.items.now item))) }
{
    match here.items.get(item as usize) {
        Some(decl) => emit_kind(here, growing, scope, item, decl),
        None => Ok(()),
    }
}

/// The items of a scope in their order.
pub fn emit_items(
    here: &LoweringScene,
    growing: &mut Growing,
    scope: &NumberedScope,
) -> Result<(), AllocError>
    ensures { OnOk result (Grown growing.old growing.new
        (words.items_code (scope_standing here.now scope.now) scope.now.terms.now.order)) }
{
    for &item in scope.terms.order.as_slice() {
        emit_item(here, growing, scope, item)?;
    }
    Ok(())
}
