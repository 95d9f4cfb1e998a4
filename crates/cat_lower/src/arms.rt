// The code of matches.
ghost use Rattle.std.specs.Prelude.{◌≡◌, ◌+◌, ◌++◌, true, ◌∷◌, [], Some, None, All, ◌<◌, IfOk, OnOk, length, map};
ghost use Rattle.std.specs.Option.{option_copied};
ghost use Rattle.cat_value.specs.Defaults.{default_of};
ghost use Rattle.cat_value.specs.declared.ty.Ty.TheViews.{out-Ty};
ghost use Rattle.cat_code.specs.declared.instr.Instr.TheVariants as instr;
ghost use Rattle.cat_lower.specs.Grown.{Grown, all_patched};
ghost use Rattle.cat_lower.specs.Laying.{one, led, then_code};
ghost use Rattle.cat_lower.specs.Pieces.{constant, arm_body, first_side};
ghost use Rattle.cat_lower.specs.Rows as rows;
ghost use Rattle.cat_lower.specs.Types as words;
ghost use Rattle.cat_lower.specs.Expressions.{lowered};
ghost use Rattle.cat_lower.specs.Told.{standing_at};

use crate::expressions::{emit, emit_part, emit_under};
use crate::growing::{patch, place, put, put_constant, put_open};
use crate::lookups::{content_type, type_or};
use crate::puts::{put_is_case, put_next_local};
use crate::types::{enumeration_of, type_of_match};
use crate::{Growing, LoweringScene};
use cat_code::Instr;
use cat_pos::{Boxed, List};
use cat_scope::{Arm, ArmPattern, Arms, Expr};
use cat_value::{Ty, Tys, copy_ty, is_declared, least_value};
use std::alloc::AllocError;

/// The subject becomes a local name; the arms take it off.
#[cycle(emit)]
pub fn emit_match(
    here: &LoweringScene,
    growing: &mut Growing,
    locals: &mut Tys,
    of: &Boxed<Expr>,
    arms: &Arms,
    expected: Option<&Ty>,
) -> Result<(), AllocError>
    ensures grown { OnOk result (Grown growing.old growing.new
        (then_code ((lowered (standing_at here.now) of.now).code locals.old None) (led instr.Bind
        (rows.arms_code (standing_at here.now)
        (words.enumeration_in (out-Ty ((lowered (standing_at here.now) of.now).type locals.old None)))
        (words.arms_type here.now.decls.now
        (words.enumeration_in (out-Ty ((lowered (standing_at here.now) of.now).type locals.old None)))
        (map (λ a. (a.pattern, lowered (standing_at here.now) a.body)) arms.now) locals.old
        (option_copied expected.entry))
        (map (λ a. (a.pattern, lowered (standing_at here.now) a.body)) arms.now) locals.old
        (option_copied expected.entry))))) }
    ensures kept { OnOk result (locals.new ≡ locals.old) }
{
    emit_part(here, growing, locals, of, None)?;
    put(growing, Instr::Bind)?;
    let enumeration = enumeration_of(here, locals, of)?;
    let ty = type_of_match(here, locals, of, arms, expected)?;
    emit_arms(here, growing, locals, enumeration, &ty, arms, expected)
}

/// Arms for the cases of an enumeration, which give a value of this type.
#[cycle(emit)]
fn emit_arms(
    here: &LoweringScene,
    growing: &mut Growing,
    locals: &mut Tys,
    enumeration: u32,
    ty: &Ty,
    arms: &Arms,
    expected: Option<&Ty>,
) -> Result<(), AllocError>
    ensures grown { OnOk result (Grown growing.old growing.new
        (rows.arms_code (standing_at here.now) enumeration ty.now
        (map (λ a. (a.pattern, lowered (standing_at here.now) a.body)) arms.now) locals.old
        (option_copied expected.entry))) }
    ensures kept { OnOk result (locals.new ≡ locals.old) }
{
    let ends = lay_arms(here, growing, locals, enumeration, ty, arms, expected)?;
    let end = place(growing)?;
    patch_all(growing, ends, Instr::Jump(end));
    Ok(())
}

/// The places of the jumps to what stands behind the arms, which are still open.
#[cycle(emit)]
fn lay_arms(
    here: &LoweringScene,
    growing: &mut Growing,
    locals: &mut Tys,
    enumeration: u32,
    ty: &Ty,
    arms: &Arms,
    expected: Option<&Ty>,
) -> Result<List<usize>, AllocError>
    ensures grown { IfOk result (λ ends. Grown growing.old
        (all_patched ends (instr.Jump (length growing.new.instructions)) growing.new)
        (rows.arms_code (standing_at here.now) enumeration ty.now
        (map (λ a. (a.pattern, lowered (standing_at here.now) a.body)) arms.now) locals.old
        (option_copied expected.entry))) }
    ensures within { IfOk result (All (λ at. at < length growing.new.instructions)) }
    ensures kept { OnOk result (locals.new ≡ locals.old) }
{
    let mut ends = List::new(here.alloc);
    let mut wanted = expected;
    for arm in arms.as_slice() {
        match arm.pattern {
            ArmPattern::Anything => {
                put(growing, Instr::Drop(1))?;
                emit(here, growing, locals, &arm.body, wanted)?;
                return Ok(ends);
            }
            ArmPattern::Case(case, _) => {
                let end = emit_arm(here, growing, locals, enumeration, case, arm, wanted)?;
                ends.push(end)?;
                wanted = Some(ty);
            }
        }
    }
    put_last(here, growing, ty)?;
    Ok(ends)
}

/// An arm for a case, and the place of an open jump behind it.
#[cycle(emit)]
fn emit_arm(
    here: &LoweringScene,
    growing: &mut Growing,
    locals: &mut Tys,
    enumeration: u32,
    case: u32,
    arm: &Arm,
    expected: Option<&Ty>,
) -> Result<usize, AllocError>
    ensures grown { OnOk result (Grown growing.old growing.new
        (led (instr.Local (length locals.old))
        (led (instr.IsCase (rows.case_number (standing_at here.now) enumeration case))
        (first_side (arm_body (length locals.old) (words.is_bound arm.now.pattern)
        ((lowered (standing_at here.now) arm.now.body).code
        (words.arm_types here.now.decls.now enumeration arm.now.pattern locals.old)
        (option_copied expected.entry))))))) }
    ensures place { IfOk result (λ at. at + 1 ≡ length growing.new.instructions) }
    ensures kept { OnOk result (locals.new ≡ locals.old) }
{
    put_next_local(growing, locals)?;
    put_is_case(here, growing, enumeration, case)?;
    let test = put_open(growing, Instr::JumpFalse(0))?;
    emit_body(here, growing, locals, enumeration, arm, expected)?;
    let end = put_open(growing, Instr::Jump(0))?;
    let next = place(growing)?;
    patch(growing, test, Instr::JumpFalse(next));
    Ok(end)
}

/// The body of an arm: the content takes the place of the subject, where it is bound.
#[cycle(emit)]
fn emit_body(
    here: &LoweringScene,
    growing: &mut Growing,
    locals: &mut Tys,
    enumeration: u32,
    arm: &Arm,
    expected: Option<&Ty>,
) -> Result<(), AllocError>
    ensures grown { OnOk result (Grown growing.old growing.new
        (arm_body (length locals.old) (words.is_bound arm.now.pattern)
        ((lowered (standing_at here.now) arm.now.body).code
        (words.arm_types here.now.decls.now enumeration arm.now.pattern locals.old) (option_copied expected.entry)))) }
    ensures kept { OnOk result (locals.new ≡ locals.old) }
{
    match arm.pattern {
        ArmPattern::Case(case, true) => {
            let content = type_or(here.alloc, content_type(here, enumeration, case))?;
            emit_bound(here, growing, locals, content, &arm.body, expected)
        }
        ArmPattern::Case(_, false) => emit_plain(here, growing, locals, &arm.body, expected),
        ArmPattern::Anything => emit_plain(here, growing, locals, &arm.body, expected),
    }
}

#[cycle(emit)]
fn emit_bound(
    here: &LoweringScene,
    growing: &mut Growing,
    locals: &mut Tys,
    content: Ty,
    body: &Expr,
    expected: Option<&Ty>,
) -> Result<(), AllocError>
    ensures grown { OnOk result (Grown growing.old growing.new
        (arm_body (length locals.old) true
        ((lowered (standing_at here.now) body.now).code (locals.old ++ content ∷ []) (option_copied expected.entry)))) }
    ensures kept { OnOk result (locals.new ≡ locals.old) }
{
    put_next_local(growing, locals)?;
    put(growing, Instr::Content)?;
    put(growing, Instr::Drop(1))?;
    put(growing, Instr::Bind)?;
    emit_under(here, growing, locals, content, body, expected)?;
    put(growing, Instr::Drop(1))
}

#[cycle(emit)]
fn emit_plain(
    here: &LoweringScene,
    growing: &mut Growing,
    locals: &mut Tys,
    body: &Expr,
    expected: Option<&Ty>,
) -> Result<(), AllocError>
    ensures grown { OnOk result (Grown growing.old growing.new
        (led (instr.Drop 1) ((lowered (standing_at here.now) body.now).code locals.old
        (option_copied expected.entry)))) }
    ensures kept { OnOk result (locals.new ≡ locals.old) }
{
    put(growing, Instr::Drop(1))?;
    emit(here, growing, locals, body, expected)
}

/// A value to which no run comes, since the arms before it are for all cases.
fn put_last(here: &LoweringScene, growing: &mut Growing, ty: &Ty) -> Result<(), AllocError>
    ensures { OnOk result (Grown growing.old growing.new
        (then_code (constant ty.now (default_of here.now.decls.now ty.now)) (one (instr.Drop 1)))) }
{
    if !is_declared(ty, here.decls) {
        return Err(AllocError);
    }
    let value = least_value(here.alloc, ty, here.decls)?;
    put_constant(growing, copy_ty(here.alloc, ty)?, value)?;
    put(growing, Instr::Drop(1))
}

/// Puts one instruction at several places.
fn patch_all(growing: &mut Growing, places: List<usize>, instr: Instr)
    requires { All (λ at. at < length growing.old.instructions) places }
    ensures { growing.new ≡ all_patched places instr growing.old }
{
    let mut places = places;
    while let Some(at) = places.pop() {
        patch(growing, at, instr);
    }
}
