// What operators lead to.
ghost use Rattle.std.specs.Prelude.{◌≡◌, ◌<◌, ◌+◌, ◌^◌, [], IfOk};
ghost use Rattle.cat_code.specs.declared.instr.Instr.TheVariants as instr;
ghost use Rattle.cat_code.specs.Flow.{flow};
ghost use Rattle.cat_verify_shapes.specs.declared.operators.Operator.TheVariants as operator;
ghost use Rattle.cat_verify_shapes.specs.inside.Told.{Tells};
ghost use Rattle.cat_verify_shapes.specs.inside.Operators.{Compares, GivesForm, Operates, TakesBoth, TakesForm};
ghost use Rattle.cat_verify_shapes.specs.inside.Operators.{is_compared};

use crate::forms::{Form, Forms};
use crate::leads::{Leads, Stuck, pop_as, push};
use crate::operators::{Operator, operator_of};
use crate::shape::Shape;
use cat_code::Tables;
use std::alloc::AllocError;

/// How many roundings there are.
const ROUNDINGS: u32 = 3;

/// Pops an operand of a type, where it is on top.
#[inline(always)]
fn take(forms: &Forms, shape: &mut Shape, form: Form) -> Result<bool, AllocError>
    ensures { IfOk result (TakesForm forms.now shape.old shape.new form) }
{
    let form = forms.find(form)?;
    Ok(pop_as(shape, form))
}

/// Pops two operands of types, the right one on top.
#[inline(always)]
fn take_both(forms: &Forms, shape: &mut Shape, left: Form, right: Form) -> Result<bool, AllocError>
    ensures { IfOk result (TakesBoth forms.now shape.old shape.new left right) }
{
    if !take(forms, shape, right)? {
        return Ok(false);
    }
    take(forms, shape, left)
}

/// Whether values of a type are compared with one another, by their order or as the same.
fn is_compared(form: Form, ordered: bool) -> bool
    ensures { result ≡ is_compared form ordered }
{
    match form {
        Form::Whole | Form::Fraction | Form::Amount | Form::Day | Form::Span => true,
        Form::Truth => !ordered,
        _ => false,
    }
}

/// Pops two operands of one type that is compared.
#[inline(always)]
fn take_alike(forms: &Forms, shape: &mut Shape, ordered: bool) -> Result<bool, AllocError>
    ensures { IfOk result (Compares forms.now shape.old shape.new ordered) }
{
    let Some(right) = shape.operands.pop() else {
        return Ok(false);
    };
    let Some(left) = shape.operands.pop() else {
        return Ok(false);
    };
    if left != right {
        return Ok(false);
    }
    Ok(is_compared(forms.get(right)?, ordered))
}

/// To the next instruction with a type on top.
#[inline(always)]
fn gives(forms: &Forms, place: usize, shape: Shape, form: Form) -> Result<Leads, AllocError>
    requires { place + 1 < 2 ^ 64 }
    ensures { IfOk result (GivesForm forms.now place shape form) }
{
    let form = forms.find(form)?;
    push(place, shape, form)
}

#[inline(always)]
fn before(
    tables: &Tables,
    forms: &Forms,
    place: usize,
    mut shape: Shape,
    takes: Form,
    given: Form,
) -> Result<Leads, Stuck>
    requires { place + 1 < 2 ^ 64 }
    ensures { Operates tables.now forms.now place shape (operator.Before takes given) result }
{
    if !take(forms, &mut shape, takes)? {
        return Err(Stuck::Bad);
    }
    Ok(gives(forms, place, shape, given)?)
}

#[inline(always)]
fn between(
    tables: &Tables,
    forms: &Forms,
    place: usize,
    mut shape: Shape,
    left: Form,
    right: Form,
    given: Form,
) -> Result<Leads, Stuck>
    requires { place + 1 < 2 ^ 64 }
    ensures { Operates tables.now forms.now place shape (operator.Between left right given) result }
{
    if !take_both(forms, &mut shape, left, right)? {
        return Err(Stuck::Bad);
    }
    Ok(gives(forms, place, shape, given)?)
}

#[inline(always)]
fn compared(
    tables: &Tables,
    forms: &Forms,
    place: usize,
    mut shape: Shape,
    ordered: bool,
) -> Result<Leads, Stuck>
    requires { place + 1 < 2 ^ 64 }
    ensures { Operates tables.now forms.now place shape (operator.Compares ordered) result }
{
    if !take_alike(forms, &mut shape, ordered)? {
        return Err(Stuck::Bad);
    }
    Ok(gives(forms, place, shape, Form::Truth)?)
}

/// Where an operator leads.
#[inline(always)]
fn operated(
    tables: &Tables,
    forms: &Forms,
    place: usize,
    shape: Shape,
    operator: Operator,
) -> Result<Leads, Stuck>
    requires { place + 1 < 2 ^ 64 }
    ensures { Operates tables.now forms.now place shape operator result }
{
    match operator {
        Operator::Before(takes, given) => before(tables, forms, place, shape, takes, given),
        Operator::Between(left, right, given) => {
            between(tables, forms, place, shape, left, right, given)
        }
        Operator::Compares(ordered) => compared(tables, forms, place, shape, ordered),
    }
}

#[inline(always)]
pub(crate) fn operate(
    tables: &Tables,
    forms: &Forms,
    place: usize,
    shape: Shape,
    operator: u32,
    rounding: u32,
    position: u32,
) -> Result<Leads, Stuck>
    requires { place + 1 < 2 ^ 64 }
    ensures { Tells tables.now forms.now result
        (flow tables.now [] (instr.Op operator rounding position) place) shape }
{
    if rounding >= ROUNDINGS {
        return Err(Stuck::Bad);
    }
    if position as usize >= tables.positions.len() {
        return Err(Stuck::Bad);
    }
    match operator_of(operator) {
        Some(operator) => operated(tables, forms, place, shape, operator),
        None => Err(Stuck::Bad),
    }
}
