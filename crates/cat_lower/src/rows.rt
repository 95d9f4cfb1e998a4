// The code of forms with parts in a row: lists, calls and structures.
ghost use Rattle.std.specs.Prelude.{◌≡◌, ◌∷◌, [], Some, None, OnOk, length, map, slice_get};
ghost use Rattle.std.specs.Option.{option_copied};
ghost use Rattle.cat_scope.specs.Fitting.{field_type, input_type};
ghost use Rattle.cat_scope.specs.Names.{scope_items};
ghost use Rattle.cat_code.specs.declared.instr.Instr.TheVariants as instr;
ghost use Rattle.cat_lower.specs.Grown.{Grown};
ghost use Rattle.cat_lower.specs.Laying.{one, led, then_code, all_code};
ghost use Rattle.cat_lower.specs.Pieces.{packed, pass_all, pass_absent};
ghost use Rattle.cat_lower.specs.Rows as words;
ghost use Rattle.cat_lower.specs.Expressions.{lowered};
ghost use Rattle.cat_lower.specs.Told.{standing_at};

use crate::expressions::emit;
use crate::fields::{put_absent, put_packed};
use crate::growing::{put, put_constant};
use crate::lookups::{declared_field, element_expected, given_input, param_of};
use crate::puts::{put_call, put_list};
use crate::types::type_of;
use crate::{Growing, LoweringScene};
use cat_code::Instr;
use cat_pos::List;
use cat_scope::{Expr, Exprs, FieldValues};
use cat_value::{Ty, Tys, Value, copy_ty};
use std::alloc::AllocError;

/// The empty list is a constant of the type that is expected.
#[cycle(emit)]
pub fn emit_list(
    here: &LoweringScene,
    growing: &mut Growing,
    locals: &mut Tys,
    elements: &Exprs,
    expected: Option<&Ty>,
) -> Result<(), AllocError>
    ensures grown { OnOk result (Grown growing.old growing.new
        (words.list_code (map (lowered (standing_at here.now)) elements.now) locals.old
        (option_copied expected.entry))) }
    ensures kept { OnOk result (locals.new ≡ locals.old) }
{
    match elements.as_slice() {
        [] => put_empty(here, growing, locals, expected),
        [first, rest @ ..] => {
            let wanted = element_expected(here.alloc, expected)?;
            emit_elements(here, growing, locals, first, rest, wanted.as_ref())?;
            put_list(growing, elements.len())
        }
    }
}

fn put_empty(
    here: &LoweringScene,
    growing: &mut Growing,
    locals: &Tys,
    expected: Option<&Ty>,
) -> Result<(), AllocError>
    ensures { OnOk result (Grown growing.old growing.new
        (words.list_code [] locals.now (option_copied expected.entry))) }
{
    let ty = match expected {
        Some(ty) => copy_ty(here.alloc, ty)?,
        None => Ty::Boolean,
    };
    put_constant(growing, ty, Value::List(List::new(here.alloc)))
}

/// Elements of which each further one is of the type of the first.
#[cycle(emit)]
fn emit_elements(
    here: &LoweringScene,
    growing: &mut Growing,
    locals: &mut Tys,
    first: &Expr,
    rest: &[Expr],
    expected: Option<&Ty>,
) -> Result<(), AllocError>
    ensures grown { OnOk result (Grown growing.old growing.new
        (words.row_code (lowered (standing_at here.now) first.now ∷ map (lowered (standing_at here.now)) rest.now)
        locals.old (option_copied expected.entry))) }
    ensures kept { OnOk result (locals.new ≡ locals.old) }
{
    emit(here, growing, locals, first, expected)?;
    let ty = type_of(here, locals, first, expected)?;
    emit_all(here, growing, locals, rest, &ty)
}

/// Expressions of one type.
#[cycle(emit)]
fn emit_all(
    here: &LoweringScene,
    growing: &mut Growing,
    locals: &mut Tys,
    elements: &[Expr],
    ty: &Ty,
) -> Result<(), AllocError>
    ensures grown { OnOk result (Grown growing.old growing.new
        (all_code (map (λ o. o.code locals.old (Some ty.now)) (map (lowered (standing_at here.now)) elements.now)))) }
    ensures kept { OnOk result (locals.new ≡ locals.old) }
{
    for element in elements {
        emit(here, growing, locals, element, Some(ty))?;
    }
    Ok(())
}

#[cycle(emit)]
pub fn emit_call(
    here: &LoweringScene,
    growing: &mut Growing,
    locals: &mut Tys,
    function: u32,
    arguments: &Exprs,
) -> Result<(), AllocError>
    ensures grown { OnOk result (Grown growing.old growing.new
        (then_code (words.arguments_code (words.params_of (slice_get here.now.items.now function))
        (map (lowered (standing_at here.now)) arguments.now) locals.old)
        (one (instr.Call (words.function_number (standing_at here.now) function)
        (length (map (lowered (standing_at here.now)) arguments.now)))))) }
    ensures kept { OnOk result (locals.new ≡ locals.old) }
{
    emit_arguments(here, growing, locals, function, arguments)?;
    put_call(here, growing, function, arguments.len())
}

/// Each argument is of the type of its parameter.
#[cycle(emit)]
fn emit_arguments(
    here: &LoweringScene,
    growing: &mut Growing,
    locals: &mut Tys,
    function: u32,
    arguments: &Exprs,
) -> Result<(), AllocError>
    ensures grown { OnOk result (Grown growing.old growing.new
        (words.arguments_code (words.params_of (slice_get here.now.items.now function))
        (map (lowered (standing_at here.now)) arguments.now) locals.old)) }
    ensures kept { OnOk result (locals.new ≡ locals.old) }
{
    for (number, argument) in arguments.as_slice().iter().enumerate() {
        emit(
            here,
            growing,
            locals,
            argument,
            param_of(here, function, number),
        )?;
    }
    Ok(())
}

#[cycle(emit)]
pub fn emit_structure(
    here: &LoweringScene,
    growing: &mut Growing,
    locals: &mut Tys,
    structure: u32,
    fields: &FieldValues,
) -> Result<(), AllocError>
    ensures grown { OnOk result (Grown growing.old growing.new
        (then_code (words.values_code (words.fields_code (field_type here.now.decls.now structure)
        (map (λ f. (f.field, lowered (standing_at here.now) f.value)) fields.now) locals.old))
        (packed (length locals.old) (map (λ f. f.field) fields.now)))) }
    ensures kept { OnOk result (locals.new ≡ locals.old) }
{
    emit_fields(here, growing, locals, structure, fields)?;
    put_packed(here.alloc, growing, locals.len(), fields)
}

/// The values of fields of a structure.
#[cycle(emit)]
fn emit_fields(
    here: &LoweringScene,
    growing: &mut Growing,
    locals: &mut Tys,
    structure: u32,
    fields: &FieldValues,
) -> Result<(), AllocError>
    ensures grown { OnOk result (Grown growing.old growing.new
        (words.values_code (words.fields_code (field_type here.now.decls.now structure)
        (map (λ f. (f.field, lowered (standing_at here.now) f.value)) fields.now) locals.old))) }
    ensures kept { OnOk result (locals.new ≡ locals.old) }
{
    for field in fields.as_slice() {
        let expected = declared_field(here, structure, field.field);
        emit(here, growing, locals, &field.value, expected)?;
    }
    Ok(())
}

#[cycle(emit)]
pub fn emit_scope_call(
    here: &LoweringScene,
    growing: &mut Growing,
    locals: &mut Tys,
    scope: u32,
    fields: &FieldValues,
    output: u32,
) -> Result<(), AllocError>
    ensures grown { OnOk result (Grown growing.old growing.new
        (led (instr.Scope scope) (then_code (pass_all (words.fields_code (input_type here.now.decls.now scope)
        (map (λ f. (f.field, lowered (standing_at here.now) f.value)) fields.now) locals.old))
        (then_code (pass_absent 0 (map (λ f. f.field) fields.now) (scope_items here.now.decls.now scope))
        (led instr.Enter (one (instr.Field output))))))) }
    ensures kept { OnOk result (locals.new ≡ locals.old) }
{
    put(growing, Instr::Scope(scope))?;
    emit_inputs(here, growing, locals, scope, fields)?;
    put_absent(here, growing, scope, fields)?;
    put(growing, Instr::Enter)?;
    put(growing, Instr::Field(output))
}

/// The values of inputs of a called scope, each passed to its item.
#[cycle(emit)]
fn emit_inputs(
    here: &LoweringScene,
    growing: &mut Growing,
    locals: &mut Tys,
    scope: u32,
    fields: &FieldValues,
) -> Result<(), AllocError>
    ensures grown { OnOk result (Grown growing.old growing.new
        (pass_all (words.fields_code (input_type here.now.decls.now scope)
        (map (λ f. (f.field, lowered (standing_at here.now) f.value)) fields.now) locals.old))) }
    ensures kept { OnOk result (locals.new ≡ locals.old) }
{
    for field in fields.as_slice() {
        let expected = given_input(here, scope, field.field);
        emit(here, growing, locals, &field.value, expected)?;
        put(growing, Instr::Pass(field.field))?;
    }
    Ok(())
}
