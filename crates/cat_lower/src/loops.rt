// The code of forms that go over a list.
ghost use Rattle.std.specs.Prelude.{◌≡◌, ◌+◌, ◌++◌, ◌∷◌, [], true, false, Some, None, IfOk, OnOk, length};
ghost use Rattle.std.specs.Option.{option_copied};
ghost use Rattle.cat_scope.specs.declared.operators.BinaryOp.TheVariants.{Equal};
ghost use Rattle.cat_scope.specs.Lists.{zero_of, adding as of_kind};
ghost use Rattle.cat_scope.specs.Signatures.{summed_type};
ghost use Rattle.cat_code.specs.declared.instr.Instr.TheVariants as instr;
ghost use Rattle.cat_code.specs.OperationNumbers.{number_between as of_binary};
ghost use Rattle.cat_lower.specs.Grown.{Grown};
ghost use Rattle.cat_lower.specs.Laying.{one, led, then_code, over, loop};
ghost use Rattle.cat_lower.specs.Pieces.{constant, operator, search_for, any_turn, all_turn, of_local};
ghost use Rattle.cat_lower.specs.Types as words;
ghost use Rattle.cat_lower.specs.Expressions.{lowered, collecting};
ghost use Rattle.cat_lower.specs.Told.{standing_at};

use crate::closing::{close_all, close_any, close_loop};
use crate::expressions::{emit_part, emit_part_under};
use crate::growing::{fitting, put, put_collecting, put_open};
use crate::puts::{
    begin_collecting, put_adding, put_between, put_exchanged, put_kept, put_next_local, put_zero,
};
use crate::types::{element_of, type_of_map, type_of_part, unbind};
use crate::{Growing, LoweringScene};
use cat_code::Instr;
use cat_pos::{Boxed, Pos};
use cat_scope::{BinaryOp, Expr, SumKind};
use cat_value::{Ty, Tys, copy_ty};
use std::alloc::AllocError;

/// The test of an element, which is bound to a local name.
#[cycle(emit)]
fn emit_test(
    here: &LoweringScene,
    growing: &mut Growing,
    locals: &mut Tys,
    element: Ty,
    test: &Boxed<Expr>,
) -> Result<(), AllocError>
    ensures grown { OnOk result (Grown growing.old growing.new
        (of_local ((lowered (standing_at here.now) test.now).code (locals.old ++ element ∷ []) None))) }
    ensures kept { OnOk result (locals.new ≡ locals.old) }
{
    put(growing, Instr::Bind)?;
    emit_part_under(here, growing, locals, element, test, None)?;
    put(growing, Instr::Drop(1))
}

#[cycle(emit)]
pub fn emit_for_all(
    here: &LoweringScene,
    growing: &mut Growing,
    locals: &mut Tys,
    list: &Boxed<Expr>,
    test: &Boxed<Expr>,
) -> Result<(), AllocError>
    ensures grown { OnOk result (Grown growing.old growing.new
        (then_code ((lowered (standing_at here.now) list.now).code locals.old None) (led instr.Iter
        (search_for (all_turn (of_local ((lowered (standing_at here.now) test.now).code
        (locals.old ++ words.element_type ((lowered (standing_at here.now) list.now).type locals.old None) ∷ []) None)))
        true)))) }
    ensures kept { OnOk result (locals.new ≡ locals.old) }
{
    emit_part(here, growing, locals, list, None)?;
    put(growing, Instr::Iter)?;
    let element = element_of(here, locals, list)?;
    let start = put_open(growing, Instr::Next(0))?;
    emit_test(here, growing, locals, element, test)?;
    close_all(growing, start)
}

#[cycle(emit)]
pub fn emit_exists(
    here: &LoweringScene,
    growing: &mut Growing,
    locals: &mut Tys,
    list: &Boxed<Expr>,
    test: &Boxed<Expr>,
) -> Result<(), AllocError>
    ensures grown { OnOk result (Grown growing.old growing.new
        (then_code ((lowered (standing_at here.now) list.now).code locals.old None) (led instr.Iter
        (search_for (any_turn (of_local ((lowered (standing_at here.now) test.now).code
        (locals.old ++ words.element_type ((lowered (standing_at here.now) list.now).type locals.old None) ∷ []) None)))
        false)))) }
    ensures kept { OnOk result (locals.new ≡ locals.old) }
{
    emit_part(here, growing, locals, list, None)?;
    put(growing, Instr::Iter)?;
    let element = element_of(here, locals, list)?;
    let start = put_open(growing, Instr::Next(0))?;
    emit_test(here, growing, locals, element, test)?;
    close_any(growing, start)
}

#[cycle(emit)]
pub fn emit_map(
    here: &LoweringScene,
    growing: &mut Growing,
    locals: &mut Tys,
    list: &Boxed<Expr>,
    body: &Boxed<Expr>,
) -> Result<(), AllocError>
    ensures grown { OnOk result (Grown growing.old growing.new
        (then_code ((lowered (standing_at here.now) list.now).code locals.old None)
        (then_code (collecting ((lowered (standing_at here.now) body.now).type
        (locals.old ++ words.element_type ((lowered (standing_at here.now) list.now).type locals.old None) ∷ []) None))
        (loop (led instr.Bind (then_code ((lowered (standing_at here.now) body.now).code
        (locals.old ++ words.element_type ((lowered (standing_at here.now) list.now).type locals.old None) ∷ []) None)
        (led instr.Collect (one (instr.Drop 1))))))))) }
    ensures kept { OnOk result (locals.new ≡ locals.old) }
{
    emit_part(here, growing, locals, list, None)?;
    let ty = type_of_map(here, locals, list, body)?;
    put_collecting(growing, here.alloc, ty)?;
    let element = element_of(here, locals, list)?;
    let start = put_open(growing, Instr::Next(0))?;
    put(growing, Instr::Bind)?;
    emit_part_under(here, growing, locals, element, body, None)?;
    put(growing, Instr::Collect)?;
    put(growing, Instr::Drop(1))?;
    close_loop(growing, start)
}

#[cycle(emit)]
pub fn emit_filter(
    here: &LoweringScene,
    growing: &mut Growing,
    locals: &mut Tys,
    list: &Boxed<Expr>,
    test: &Boxed<Expr>,
) -> Result<(), AllocError>
    ensures grown { OnOk result (Grown growing.old growing.new
        (then_code ((lowered (standing_at here.now) list.now).code locals.old None)
        (then_code (collecting (words.element_type ((lowered (standing_at here.now) list.now).type locals.old None)))
        (loop (led instr.Bind (then_code ((lowered (standing_at here.now) test.now).code
        (locals.old ++ words.element_type ((lowered (standing_at here.now) list.now).type locals.old None) ∷ []) None)
        (then_code (over (λ t. instr.JumpFalse t) (led (instr.Local (length locals.old)) (one instr.Collect)))
        (one (instr.Drop 1))))))))) }
    ensures kept { OnOk result (locals.new ≡ locals.old) }
{
    emit_part(here, growing, locals, list, None)?;
    let element = element_of(here, locals, list)?;
    begin_collecting(here.alloc, growing, copy_ty(here.alloc, &element)?)?;
    let local = fitting(locals.len())?;
    let start = put_open(growing, Instr::Next(0))?;
    put(growing, Instr::Bind)?;
    emit_part_under(here, growing, locals, element, test, None)?;
    put_kept(growing, local)?;
    close_loop(growing, start)
}

/// A step of what is combined, under names for the element and what was combined before.
#[cycle(emit)]
fn emit_step(
    here: &LoweringScene,
    growing: &mut Growing,
    locals: &mut Tys,
    element: Ty,
    total: &Ty,
    step: &Boxed<Expr>,
) -> Result<(), AllocError>
    ensures grown { OnOk result (Grown growing.old growing.new (led instr.Bind (led instr.Bind (then_code
        ((lowered (standing_at here.now) step.now).code (locals.old ++ element ∷ total.now ∷ []) (Some total.now))
        (one (instr.Drop 2)))))) }
    ensures kept { OnOk result (locals.new ≡ locals.old) }
{
    put(growing, Instr::Bind)?;
    put(growing, Instr::Bind)?;
    let bound = copy_ty(here.alloc, total)?;
    locals.push(element)?;
    emit_part_under(here, growing, locals, bound, step, Some(total))?;
    unbind(locals);
    put(growing, Instr::Drop(2))
}

#[cycle(emit)]
pub fn emit_combine(
    here: &LoweringScene,
    growing: &mut Growing,
    locals: &mut Tys,
    list: &Boxed<Expr>,
    start: &Boxed<Expr>,
    step: &Boxed<Expr>,
) -> Result<(), AllocError>
    ensures grown { OnOk result (Grown growing.old growing.new
        (then_code ((lowered (standing_at here.now) list.now).code locals.old None)
        (then_code ((lowered (standing_at here.now) start.now).code locals.old None)
        (led instr.Bind (led instr.Bind
        (led (instr.Local (length locals.old)) (led (instr.Local (length locals.old + 1))
        (led (instr.Drop 2) (led instr.Iter
        (loop (led instr.Bind (led instr.Bind (then_code ((lowered (standing_at here.now) step.now).code
        (locals.old ++ words.element_type ((lowered (standing_at here.now) list.now).type locals.old None)
        ∷ (lowered (standing_at here.now) start.now).type locals.old None ∷ [])
        (Some ((lowered (standing_at here.now) start.now).type locals.old None)))
        (one (instr.Drop 2))))))))))))))) }
    ensures kept { OnOk result (locals.new ≡ locals.old) }
{
    emit_part(here, growing, locals, list, None)?;
    emit_part(here, growing, locals, start, None)?;
    put_exchanged(growing, locals)?;
    put(growing, Instr::Iter)?;
    let element = element_of(here, locals, list)?;
    let total = type_of_part(here, locals, start, None)?;
    let next = put_open(growing, Instr::Next(0))?;
    emit_step(here, growing, locals, element, &total, step)?;
    close_loop(growing, next)
}

#[cycle(emit)]
pub fn emit_contains(
    here: &LoweringScene,
    growing: &mut Growing,
    locals: &mut Tys,
    at: Pos,
    list: &Boxed<Expr>,
    of: &Boxed<Expr>,
) -> Result<(), AllocError>
    ensures grown { OnOk result (Grown growing.old growing.new
        (then_code ((lowered (standing_at here.now) list.now).code locals.old None)
        (then_code ((lowered (standing_at here.now) of.now).code locals.old None)
        (led instr.Bind (led instr.Iter (then_code
        (search_for (any_turn (led (instr.Local (length locals.old)) (operator (of_binary Equal) 0 at))) false)
        (one (instr.Drop 1)))))))) }
    ensures kept { OnOk result (locals.new ≡ locals.old) }
{
    emit_part(here, growing, locals, list, None)?;
    emit_part(here, growing, locals, of, None)?;
    put_contained(growing, locals, at)
}

/// Whether an element is equal to what stands behind its list.
fn put_contained(growing: &mut Growing, locals: &Tys, at: Pos) -> Result<(), AllocError>
    ensures { OnOk result (Grown growing.old growing.new (led instr.Bind (led instr.Iter (then_code
        (search_for (any_turn (led (instr.Local (length locals.now)) (operator (of_binary Equal) 0 at))) false)
        (one (instr.Drop 1)))))) }
{
    put(growing, Instr::Bind)?;
    put(growing, Instr::Iter)?;
    let start = put_open(growing, Instr::Next(0))?;
    put_next_local(growing, locals)?;
    put_between(growing, BinaryOp::Equal, at)?;
    close_any(growing, start)?;
    put(growing, Instr::Drop(1))
}

#[cycle(emit)]
pub fn emit_sum(
    here: &LoweringScene,
    growing: &mut Growing,
    locals: &mut Tys,
    pos: Pos,
    kind: SumKind,
    list: &Boxed<Expr>,
) -> Result<(), AllocError>
    ensures grown { OnOk result (Grown growing.old growing.new
        (then_code (constant (summed_type kind) (zero_of kind))
        (then_code ((lowered (standing_at here.now) list.now).code locals.old None)
        (led instr.Iter (loop (operator (of_binary (of_kind kind)) 0 pos)))))) }
    ensures kept { OnOk result (locals.new ≡ locals.old) }
{
    put_zero(growing, kind)?;
    emit_part(here, growing, locals, list, None)?;
    put(growing, Instr::Iter)?;
    let start = put_open(growing, Instr::Next(0))?;
    put_adding(growing, kind, pos)?;
    close_loop(growing, start)
}
