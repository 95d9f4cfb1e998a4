// The code of expressions.
ghost use Rattle.std.specs.Prelude.{◌≡◌, ◌++◌, ◌∷◌, [], true, false, Some, None, OnOk, option_map};
ghost use Rattle.std.specs.Option.{option_copied};
ghost use Rattle.cat_code.specs.declared.instr.Instr.TheVariants as instr;
ghost use Rattle.cat_code.specs.OperationNumbers.{number_before as of_unary, number_between as of_binary};
ghost use Rattle.cat_code.specs.OperationNumbers.{rounding_number as of_rounding};
ghost use Rattle.cat_lower.specs.Grown.{Grown};
ghost use Rattle.cat_lower.specs.Laying.{one, led, then_code, branch};
ghost use Rattle.cat_lower.specs.Pieces.{operator, truth};
ghost use Rattle.cat_lower.specs.Rows as rows;
ghost use Rattle.cat_lower.specs.Expressions.{lowered, case_code};
ghost use Rattle.cat_lower.specs.Told.{standing_at};

use crate::arms::emit_match;
use crate::closing::close_sides;
use crate::growing::{put, put_constant, put_open, put_truth};
use crate::lookups::content_type;
use crate::loops::{
    emit_combine, emit_contains, emit_exists, emit_filter, emit_for_all, emit_map, emit_sum,
};
use crate::numbers::literal_ty;
use crate::puts::{put_binary, put_is_case, put_output, put_tag, put_tag_none, put_unary};
use crate::rows::{emit_call, emit_list, emit_scope_call, emit_structure};
use crate::types::{type_of_part, unbind};
use crate::values::literal_value;
use crate::{Growing, LoweringScene};
use cat_code::Instr;
use cat_pos::{Boxed, Pos, Shared};
use cat_scope::{BinaryOp, Expr, UnaryOp};
use cat_value::{Ty, Tys};
use std::alloc::AllocError;

/// The code of an expression under local names of these types, where one may be expected.
#[cycle(emit)]
pub fn emit(
    here: &LoweringScene,
    growing: &mut Growing,
    locals: &mut Tys,
    e: &Expr,
    expected: Option<&Ty>,
) -> Result<(), AllocError>
    ensures grown { OnOk result (Grown growing.old growing.new
        ((lowered (standing_at here.now) e.now).code locals.old (option_copied expected.entry))) }
    ensures kept { OnOk result (locals.new ≡ locals.old) }
{
    match e {
        Expr::Literal(_, literal) => {
            put_constant(growing, literal_ty(*literal), literal_value(*literal))
        }
        Expr::Item(_, item) => put(growing, Instr::Slot(*item)),
        Expr::Output(_, item, output) => put_output(growing, *item, *output),
        Expr::Local(_, local) => put(growing, Instr::Local(*local)),
        Expr::Field(_, of, field) => emit_then(here, growing, locals, of, Instr::Field(*field)),
        Expr::Unary(pos, op, of) => emit_unary(here, growing, locals, *pos, *op, of),
        Expr::Binary(_, op, at, left, right) => {
            emit_binary(here, growing, locals, *op, *at, left, right)
        }
        Expr::And(_, left, right) => emit_and(here, growing, locals, left, right),
        Expr::Or(_, left, right) => emit_or(here, growing, locals, left, right),
        Expr::If(_, test, yes, no) => emit_if(here, growing, locals, test, yes, no, expected),
        Expr::Match(_, of, arms) => emit_match(here, growing, locals, of, arms.get(), expected),
        Expr::IsCase(_, of, enumeration, case) => {
            emit_is_case(here, growing, locals, of, *enumeration, *case)
        }
        Expr::Case(_, enumeration, case, content) => {
            emit_case(here, growing, locals, *enumeration, *case, content)
        }
        Expr::Structure(_, structure, fields) => {
            emit_structure(here, growing, locals, *structure, fields)
        }
        Expr::List(_, elements) => emit_list(here, growing, locals, elements, expected),
        Expr::ForAll(_, list, test) => emit_for_all(here, growing, locals, list, test),
        Expr::Exists(_, list, test) => emit_exists(here, growing, locals, list, test),
        Expr::Map(_, list, body) => emit_map(here, growing, locals, list, body),
        Expr::Filter(_, list, test) => emit_filter(here, growing, locals, list, test),
        Expr::Combine(_, list, start, body) => {
            emit_combine(here, growing, locals, list, start, body)
        }
        Expr::Contains(_, at, list, of) => emit_contains(here, growing, locals, *at, list, of),
        Expr::Length(_, list) => emit_then(here, growing, locals, list, Instr::Length),
        Expr::Sum(pos, kind, list) => emit_sum(here, growing, locals, *pos, *kind, list),
        Expr::Call(_, function, arguments) => {
            emit_call(here, growing, locals, *function, arguments)
        }
        Expr::ScopeCall(_, scope, fields, output) => {
            emit_scope_call(here, growing, locals, *scope, fields.get(), *output)
        }
    }
}

/// The same of a part.
#[cycle(emit)]
pub fn emit_part(
    here: &LoweringScene,
    growing: &mut Growing,
    locals: &mut Tys,
    part: &Boxed<Expr>,
    expected: Option<&Ty>,
) -> Result<(), AllocError>
    ensures grown { OnOk result (Grown growing.old growing.new
        ((lowered (standing_at here.now) part.now).code locals.old (option_copied expected.entry))) }
    ensures kept { OnOk result (locals.new ≡ locals.old) }
{
    emit(here, growing, locals, part.get(), expected)
}

/// The same of an expression that is shared.
#[cycle(emit)]
pub fn emit_shared(
    here: &LoweringScene,
    growing: &mut Growing,
    locals: &mut Tys,
    shared: &Shared<Expr>,
    expected: Option<&Ty>,
) -> Result<(), AllocError>
    ensures grown { OnOk result (Grown growing.old growing.new
        ((lowered (standing_at here.now) shared.now).code locals.old (option_copied expected.entry))) }
    ensures kept { OnOk result (locals.new ≡ locals.old) }
{
    emit(here, growing, locals, shared.get(), expected)
}

/// The same under one local name more.
#[cycle(emit)]
pub fn emit_under(
    here: &LoweringScene,
    growing: &mut Growing,
    locals: &mut Tys,
    ty: Ty,
    e: &Expr,
    expected: Option<&Ty>,
) -> Result<(), AllocError>
    ensures grown { OnOk result (Grown growing.old growing.new
        ((lowered (standing_at here.now) e.now).code (locals.old ++ ty ∷ []) (option_copied expected.entry))) }
    ensures kept { OnOk result (locals.new ≡ locals.old) }
{
    locals.push(ty)?;
    emit(here, growing, locals, e, expected)?;
    unbind(locals);
    Ok(())
}

/// The same of a part.
#[cycle(emit)]
pub fn emit_part_under(
    here: &LoweringScene,
    growing: &mut Growing,
    locals: &mut Tys,
    ty: Ty,
    part: &Boxed<Expr>,
    expected: Option<&Ty>,
) -> Result<(), AllocError>
    ensures grown { OnOk result (Grown growing.old growing.new
        ((lowered (standing_at here.now) part.now).code (locals.old ++ ty ∷ []) (option_copied expected.entry))) }
    ensures kept { OnOk result (locals.new ≡ locals.old) }
{
    emit_under(here, growing, locals, ty, part.get(), expected)
}

/// A part, and behind it one instruction.
#[cycle(emit)]
fn emit_then(
    here: &LoweringScene,
    growing: &mut Growing,
    locals: &mut Tys,
    part: &Boxed<Expr>,
    instr: Instr,
) -> Result<(), AllocError>
    ensures grown { OnOk result (Grown growing.old growing.new
        (then_code ((lowered (standing_at here.now) part.now).code locals.old None) (one instr))) }
    ensures kept { OnOk result (locals.new ≡ locals.old) }
{
    emit_part(here, growing, locals, part, None)?;
    put(growing, instr)
}

#[cycle(emit)]
fn emit_unary(
    here: &LoweringScene,
    growing: &mut Growing,
    locals: &mut Tys,
    pos: Pos,
    op: UnaryOp,
    of: &Boxed<Expr>,
) -> Result<(), AllocError>
    ensures grown { OnOk result (Grown growing.old growing.new
        (then_code ((lowered (standing_at here.now) of.now).code locals.old None) (operator (of_unary op) 0 pos))) }
    ensures kept { OnOk result (locals.new ≡ locals.old) }
{
    emit_part(here, growing, locals, of, None)?;
    put_unary(growing, op, pos)
}

#[cycle(emit)]
fn emit_binary(
    here: &LoweringScene,
    growing: &mut Growing,
    locals: &mut Tys,
    op: BinaryOp,
    at: Pos,
    left: &Boxed<Expr>,
    right: &Boxed<Expr>,
) -> Result<(), AllocError>
    ensures grown { OnOk result (Grown growing.old growing.new
        (then_code ((lowered (standing_at here.now) left.now).code locals.old None)
        (then_code ((lowered (standing_at here.now) right.now).code locals.old None)
        (operator (of_binary op) (of_rounding here.now.rounding) at)))) }
    ensures kept { OnOk result (locals.new ≡ locals.old) }
{
    emit_part(here, growing, locals, left, None)?;
    emit_part(here, growing, locals, right, None)?;
    put_binary(growing, op, here.rounding, at)
}

#[cycle(emit)]
fn emit_and(
    here: &LoweringScene,
    growing: &mut Growing,
    locals: &mut Tys,
    left: &Shared<Expr>,
    right: &Boxed<Expr>,
) -> Result<(), AllocError>
    ensures grown { OnOk result (Grown growing.old growing.new
        (then_code ((lowered (standing_at here.now) left.now).code locals.old None)
        (branch (λ t. instr.JumpFalse t) ((lowered (standing_at here.now) right.now).code locals.old None)
        (truth false)))) }
    ensures kept { OnOk result (locals.new ≡ locals.old) }
{
    emit_shared(here, growing, locals, left, None)?;
    let test = put_open(growing, Instr::JumpFalse(0))?;
    emit_part(here, growing, locals, right, None)?;
    let first = put_open(growing, Instr::Jump(0))?;
    put_truth(growing, false)?;
    close_sides(growing, test, first)
}

#[cycle(emit)]
fn emit_or(
    here: &LoweringScene,
    growing: &mut Growing,
    locals: &mut Tys,
    left: &Boxed<Expr>,
    right: &Boxed<Expr>,
) -> Result<(), AllocError>
    ensures grown { OnOk result (Grown growing.old growing.new
        (then_code ((lowered (standing_at here.now) left.now).code locals.old None)
        (branch (λ t. instr.JumpFalse t) (truth true)
        ((lowered (standing_at here.now) right.now).code locals.old None)))) }
    ensures kept { OnOk result (locals.new ≡ locals.old) }
{
    emit_part(here, growing, locals, left, None)?;
    let test = put_open(growing, Instr::JumpFalse(0))?;
    put_truth(growing, true)?;
    let first = put_open(growing, Instr::Jump(0))?;
    emit_part(here, growing, locals, right, None)?;
    close_sides(growing, test, first)
}

/// The second side is of the type of the first one.
#[cycle(emit)]
fn emit_if(
    here: &LoweringScene,
    growing: &mut Growing,
    locals: &mut Tys,
    test: &Boxed<Expr>,
    yes: &Boxed<Expr>,
    no: &Boxed<Expr>,
    expected: Option<&Ty>,
) -> Result<(), AllocError>
    ensures grown { OnOk result (Grown growing.old growing.new
        (then_code ((lowered (standing_at here.now) test.now).code locals.old None)
        (branch (λ t. instr.JumpFalse t)
        ((lowered (standing_at here.now) yes.now).code locals.old (option_copied expected.entry))
        ((lowered (standing_at here.now) no.now).code locals.old
        (Some ((lowered (standing_at here.now) yes.now).type locals.old (option_copied expected.entry))))))) }
    ensures kept { OnOk result (locals.new ≡ locals.old) }
{
    emit_part(here, growing, locals, test, None)?;
    let ty = type_of_part(here, locals, yes, expected)?;
    let test = put_open(growing, Instr::JumpFalse(0))?;
    emit_part(here, growing, locals, yes, expected)?;
    let first = put_open(growing, Instr::Jump(0))?;
    emit_part(here, growing, locals, no, Some(&ty))?;
    close_sides(growing, test, first)
}

#[cycle(emit)]
fn emit_is_case(
    here: &LoweringScene,
    growing: &mut Growing,
    locals: &mut Tys,
    of: &Boxed<Expr>,
    enumeration: u32,
    case: u32,
) -> Result<(), AllocError>
    ensures grown { OnOk result (Grown growing.old growing.new
        (then_code ((lowered (standing_at here.now) of.now).code locals.old None)
        (one (instr.IsCase (rows.case_number (standing_at here.now) enumeration case))))) }
    ensures kept { OnOk result (locals.new ≡ locals.old) }
{
    emit_part(here, growing, locals, of, None)?;
    put_is_case(here, growing, enumeration, case)
}

/// A case, with its content where it has one.
#[cycle(emit)]
fn emit_case(
    here: &LoweringScene,
    growing: &mut Growing,
    locals: &mut Tys,
    enumeration: u32,
    case: u32,
    content: &Option<Boxed<Expr>>,
) -> Result<(), AllocError>
    ensures grown { OnOk result (Grown growing.old growing.new
        (case_code (standing_at here.now) enumeration case
        (option_map (lowered (standing_at here.now)) content.now) locals.old)) }
    ensures kept { OnOk result (locals.new ≡ locals.old) }
{
    match content {
        None => put_tag_none(here, growing, enumeration, case),
        Some(content) => emit_tag(here, growing, locals, enumeration, case, content),
    }
}

#[cycle(emit)]
fn emit_tag(
    here: &LoweringScene,
    growing: &mut Growing,
    locals: &mut Tys,
    enumeration: u32,
    case: u32,
    content: &Boxed<Expr>,
) -> Result<(), AllocError>
    ensures grown { OnOk result (Grown growing.old growing.new
        (case_code (standing_at here.now) enumeration case
        (Some (lowered (standing_at here.now) content.now)) locals.old)) }
    ensures kept { OnOk result (locals.new ≡ locals.old) }
{
    let expected = content_type(here, enumeration, case);
    emit_part(here, growing, locals, content, expected)?;
    put_tag(here, growing, enumeration, case)
}
