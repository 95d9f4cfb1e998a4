// The code of scopes, and the positions of their definitions.
ghost use Rattle.std.specs.Prelude.{◌≡◌, ◌++◌, ◌∷◌, [], OnOk, IfOk};
ghost use Rattle.cat_lower.specs.Grown.{Grown, ends_of};
ghost use Rattle.cat_lower.specs.Laying.{end_of};
ghost use Rattle.cat_lower.specs.Lowered as words;
ghost use Rattle.cat_lower.specs.Scopes as scope_words;
ghost use Rattle.cat_lower.specs.Told.{standing_at, scope_standing};

use crate::expressions::emit_shared;
use crate::growing::{added, fitting, place, put, put_assertion};
use crate::items::{NumberedScope, emit_functions, emit_items};
use crate::{Growing, LoweringScene};
use cat_code::Instr;
use cat_pos::{List, Numbers};
use cat_scope::{Assertion, Assertions};
use cat_value::ItemDecls;
use std::alloc::AllocError;

fn emit_assertion(
    here: &LoweringScene,
    growing: &mut Growing,
    assertion: &Assertion,
) -> Result<(), AllocError>
    ensures { OnOk result (Grown growing.old growing.new
        (words.assertion_code (standing_at here.now) assertion.now)) }
{
    let mut locals = List::new(here.alloc);
    emit_shared(here, growing, &mut locals, &assertion.condition, None)?;
    put_assertion(growing, assertion.keyword)
}

fn emit_assertions(
    here: &LoweringScene,
    growing: &mut Growing,
    assertions: &Assertions,
) -> Result<(), AllocError>
    ensures { OnOk result (Grown growing.old growing.new
        (words.assertions_code (standing_at here.now) assertions.now)) }
{
    for assertion in assertions.as_slice() {
        emit_assertion(here, growing, assertion)?;
    }
    Ok(())
}

/// The values of the outputs.
fn put_outputs(growing: &mut Growing, items: &ItemDecls) -> Result<(), AllocError>
    ensures { OnOk result (Grown growing.old growing.new (scope_words.outputs_code 0 items.now)) }
{
    for (number, item) in items.as_slice().iter().enumerate() {
        if !item.kind.is_output() {
            continue;
        }
        let slot = fitting(number)?;
        put(growing, Instr::Slot(slot))?;
    }
    Ok(())
}

fn output_count(items: &ItemDecls) -> Result<usize, AllocError>
    ensures { IfOk result (λ count. count ≡ scope_words.output_count items.now) }
{
    let mut count = 0usize;
    for item in items.as_slice() {
        if !item.kind.is_output() {
            continue;
        }
        count = added(count, 1)?;
    }
    Ok(count)
}

/// What stands behind the functions of a scope.
fn emit_scope_body(
    here: &LoweringScene,
    growing: &mut Growing,
    scope: &NumberedScope,
) -> Result<(), AllocError>
    ensures { OnOk result (Grown growing.old growing.new (words.body_code (scope_standing here.now scope.now))) }
{
    let count = output_count(here.items)?;
    emit_items(here, growing, scope)?;
    emit_assertions(here, growing, &scope.terms.assertions)?;
    put_outputs(growing, here.items)?;
    put(growing, Instr::Pack(fitting(count)?))?;
    put(growing, Instr::Return)
}

/// A whole scope, and where its functions and it begin.
pub fn emit_scope(
    here: &LoweringScene,
    growing: &mut Growing,
    functions: &mut Numbers,
    scopes: &mut Numbers,
    scope: &NumberedScope,
) -> Result<(), AllocError>
    ensures grown { OnOk result (Grown growing.old growing.new (words.scope_code (scope_standing here.now scope.now))) }
    ensures functions { OnOk result (functions.new ≡ functions.old
        ++ scope_words.function_entries (scope_standing here.now scope.now) 0 here.now.items.now
        (ends_of growing.old)) }
    ensures scopes { OnOk result (scopes.new ≡ scopes.old
        ++ (end_of (scope_words.functions_code (scope_standing here.now scope.now) 0 here.now.items.now)
        (ends_of growing.old)).place ∷ []) }
{
    emit_functions(here, growing, functions, scope)?;
    let begin = place(growing)?;
    scopes.push(begin)?;
    emit_scope_body(here, growing, scope)
}
