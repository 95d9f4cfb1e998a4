// Instructions by what they are for.
ghost use Rattle.std.specs.Prelude.{◌+◌, OnOk, length};
ghost use Rattle.cat_scope.specs.Lists.{zero_of, adding as of_kind};
ghost use Rattle.cat_scope.specs.Signatures.{summed_type};
ghost use Rattle.cat_code.specs.declared.instr.Instr.TheVariants as instr;
ghost use Rattle.cat_code.specs.OperationNumbers.{number_before as of_unary, number_between as of_binary};
ghost use Rattle.cat_code.specs.OperationNumbers.{rounding_number as of_rounding};
ghost use Rattle.cat_lower.specs.Grown.{Grown};
ghost use Rattle.cat_lower.specs.Laying.{one, led, then_code, over};
ghost use Rattle.cat_lower.specs.Pieces.{constant, operator};
ghost use Rattle.cat_lower.specs.Expressions.{collecting};
ghost use Rattle.cat_lower.specs.Rows as rows;
ghost use Rattle.cat_lower.specs.Told.{standing_at};

use crate::counts::{case_number, function_number};
use crate::growing::{
    added, behind, fitting, patch, place, put, put_collecting, put_constant, put_open, put_operator,
};
use crate::numbers::{number_before, number_between, rounding_number, summed};
use crate::values::{adding, zero};
use crate::{Growing, LoweringScene};
use cat_code::Instr;
use cat_date::Rounding;
use cat_pos::{Boxed, Pos};
use cat_scope::{BinaryOp, SumKind, UnaryOp};
use cat_value::{Ty, Tys};
use std::alloc::{AllocError, Global};

pub fn put_unary(growing: &mut Growing, op: UnaryOp, pos: Pos) -> Result<(), AllocError>
    ensures { OnOk result (Grown growing.old growing.new (operator (of_unary op) 0 pos)) }
{
    put_operator(growing, number_before(op), 0, pos)
}

pub fn put_binary(
    growing: &mut Growing,
    op: BinaryOp,
    rounding: Rounding,
    pos: Pos,
) -> Result<(), AllocError>
    ensures { OnOk result (Grown growing.old growing.new (operator (of_binary op) (of_rounding rounding) pos)) }
{
    put_operator(growing, number_between(op), rounding_number(rounding), pos)
}

/// An operator that does nothing with days.
pub fn put_between(growing: &mut Growing, op: BinaryOp, pos: Pos) -> Result<(), AllocError>
    ensures { OnOk result (Grown growing.old growing.new (operator (of_binary op) 0 pos)) }
{
    put_operator(growing, number_between(op), 0, pos)
}

/// A called scope's output.
pub fn put_output(growing: &mut Growing, item: u32, output: u32) -> Result<(), AllocError>
    ensures { OnOk result (Grown growing.old growing.new (led (instr.Slot item) (one (instr.Field output)))) }
{
    put(growing, Instr::Slot(item))?;
    put(growing, Instr::Field(output))
}

pub fn put_is_case(
    here: &LoweringScene,
    growing: &mut Growing,
    enumeration: u32,
    case: u32,
) -> Result<(), AllocError>
    ensures { OnOk result (Grown growing.old growing.new
        (one (instr.IsCase (rows.case_number (standing_at here.now) enumeration case)))) }
{
    put(
        growing,
        Instr::IsCase(case_number(here, enumeration, case)?),
    )
}

/// A case with its content.
pub fn put_tag(
    here: &LoweringScene,
    growing: &mut Growing,
    enumeration: u32,
    case: u32,
) -> Result<(), AllocError>
    ensures { OnOk result (Grown growing.old growing.new
        (one (instr.Tag (rows.case_number (standing_at here.now) enumeration case)))) }
{
    put(growing, Instr::Tag(case_number(here, enumeration, case)?))
}

/// A case without content.
pub fn put_tag_none(
    here: &LoweringScene,
    growing: &mut Growing,
    enumeration: u32,
    case: u32,
) -> Result<(), AllocError>
    ensures { OnOk result (Grown growing.old growing.new
        (one (instr.TagNone (rows.case_number (standing_at here.now) enumeration case)))) }
{
    put(
        growing,
        Instr::TagNone(case_number(here, enumeration, case)?),
    )
}

pub fn put_call(
    here: &LoweringScene,
    growing: &mut Growing,
    function: u32,
    arguments: usize,
) -> Result<(), AllocError>
    ensures { OnOk result (Grown growing.old growing.new
        (one (instr.Call (rows.function_number (standing_at here.now) function) arguments))) }
{
    let number = function_number(here, function)?;
    put(growing, Instr::Call(number, fitting(arguments)?))
}

/// A definition of the scope holds.
pub fn put_hold(here: &LoweringScene, growing: &mut Growing, number: u32) -> Result<(), AllocError>
    ensures { OnOk result (Grown growing.old growing.new (one (instr.Hold (here.now.definitions + number)))) }
{
    let definition = added(here.definitions as usize, number as usize)?;
    put(growing, Instr::Hold(fitting(definition)?))
}

/// A list of so many operands.
pub fn put_list(growing: &mut Growing, elements: usize) -> Result<(), AllocError>
    ensures { OnOk result (Grown growing.old growing.new (one (instr.List elements))) }
{
    put(growing, Instr::List(fitting(elements)?))
}

/// The name that is bound behind those of these types.
pub fn put_next_local(growing: &mut Growing, locals: &Tys) -> Result<(), AllocError>
    ensures { OnOk result (Grown growing.old growing.new (one (instr.Local (length locals.now)))) }
{
    put(growing, Instr::Local(fitting(locals.len())?))
}

/// A loop begins that collects values of this type.
pub fn begin_collecting(alloc: Global, growing: &mut Growing, element: Ty) -> Result<(), AllocError>
    ensures { OnOk result (Grown growing.old growing.new (collecting element)) }
{
    let ty = Ty::List(Boxed::new(alloc, element)?);
    put_collecting(growing, alloc, ty)
}

pub fn put_zero(growing: &mut Growing, kind: SumKind) -> Result<(), AllocError>
    ensures { OnOk result (Grown growing.old growing.new (constant (summed_type kind) (zero_of kind))) }
{
    put_constant(growing, summed(kind), zero(kind))
}

pub fn put_adding(growing: &mut Growing, kind: SumKind, pos: Pos) -> Result<(), AllocError>
    ensures { OnOk result (Grown growing.old growing.new (operator (of_binary (of_kind kind)) 0 pos)) }
{
    put_between(growing, adding(kind), pos)
}

/// Collects an element, which has this number among the local names, where its test is true.
pub fn put_kept(growing: &mut Growing, local: u32) -> Result<(), AllocError>
    ensures { OnOk result (Grown growing.old growing.new
        (then_code (over (λ t. instr.JumpFalse t) (led (instr.Local local) (one instr.Collect)))
        (one (instr.Drop 1)))) }
{
    let test = put_open(growing, Instr::JumpFalse(0))?;
    put(growing, Instr::Local(local))?;
    put(growing, Instr::Collect)?;
    let end = place(growing)?;
    patch(growing, test, Instr::JumpFalse(end));
    put(growing, Instr::Drop(1))
}

/// A list and what stands behind it change places.
pub fn put_exchanged(growing: &mut Growing, locals: &Tys) -> Result<(), AllocError>
    ensures { OnOk result (Grown growing.old growing.new
        (led instr.Bind (led instr.Bind (led (instr.Local (length locals.now))
        (led (instr.Local (length locals.now + 1)) (one (instr.Drop 2))))))) }
{
    let local = fitting(locals.len())?;
    let next = behind(locals.len())?;
    put(growing, Instr::Bind)?;
    put(growing, Instr::Bind)?;
    put(growing, Instr::Local(local))?;
    put(growing, Instr::Local(next))?;
    put(growing, Instr::Drop(2))
}
