// The code of targets: what their terms come to.
ghost use Rattle.std.specs.Prelude.{◌≡◌, [], OnOk, IfOk};
ghost use Rattle.std.specs.Option.{option_copied};
ghost use Rattle.cat_code.specs.declared.instr.Instr.TheVariants as instr;
ghost use Rattle.cat_lower.specs.Grown.{Grown};
ghost use Rattle.cat_lower.specs.Laying.{nothing, branch};
ghost use Rattle.cat_lower.specs.Terms as words;
ghost use Rattle.cat_lower.specs.Told.{standing_at, term_standing};

use crate::growing::{fitting, patch, place, put, put_open, put_target, put_truth};
use crate::terms::{TypedTarget, emit_term};
use crate::{Growing, LoweringScene};
use cat_calc::DefaultTerm;
use cat_code::{Instr, TargetEntry};
use cat_pos::List;
use cat_value::{Ty, Tys, copy_ty};
use std::alloc::{AllocError, Global};

/// A frame that has what a target comes to.
fn emit_judged(
    here: &LoweringScene,
    growing: &mut Growing,
    locals: &mut Tys,
    aim: &TypedTarget,
    term: Option<&DefaultTerm>,
) -> Result<(), AllocError>
    ensures grown { OnOk result (Grown growing.old growing.new
        (words.judged_code (term_standing here.now aim.now locals.old) (option_copied term.entry))) }
{
    put(growing, Instr::Begin(aim.target))?;
    match term {
        Some(term) => {
            emit_term(here, growing, locals, aim, term)?;
            put(growing, Instr::Check(aim.target))
        }
        None => put(growing, Instr::Check(aim.target)),
    }
}

/// Where nothing holds: false for a condition, else no value.
fn put_without_value(growing: &mut Growing, target: u32, condition: bool) -> Result<(), AllocError>
    ensures { OnOk result (Grown growing.old growing.new (words.without_value target condition)) }
{
    if condition {
        return put_truth(growing, false);
    }
    put(growing, Instr::NoValue(target))
}

/// The value that a frame has, or what stands for it where it has none.
fn put_taken(growing: &mut Growing, target: u32, condition: bool) -> Result<(), AllocError>
    ensures { OnOk result (Grown growing.old growing.new
        (branch (λ t. instr.Take t) nothing (words.without_value target condition))) }
{
    let test = put_open(growing, Instr::Take(0))?;
    let first = put_open(growing, Instr::Jump(0))?;
    let second = place(growing)?;
    put_without_value(growing, target, condition)?;
    let end = place(growing)?;
    patch(growing, first, Instr::Jump(end));
    patch(growing, test, Instr::Take(second));
    Ok(())
}

fn copy_tys(alloc: Global, tys: &Tys) -> Result<Tys, AllocError>
    ensures { IfOk result (λ copied. copied ≡ tys.now) }
{
    let mut copies = List::new(alloc);
    for ty in tys.as_slice() {
        copies.push(copy_ty(alloc, ty)?)?;
    }
    Ok(copies)
}

/// The value of a target, under parameters of these types.
pub fn emit_target(
    here: &LoweringScene,
    growing: &mut Growing,
    entry: TargetEntry,
    ty: &Ty,
    params: &Tys,
    condition: bool,
    term: Option<&DefaultTerm>,
) -> Result<(), AllocError>
    ensures { OnOk result (Grown growing.old growing.new
        (words.target_code (standing_at here.now) entry ty.now params.now condition (option_copied term.entry))) }
{
    let mut locals = copy_tys(here.alloc, params)?;
    let target = fitting(growing.targets.len())?;
    put_target(growing, entry)?;
    emit_judged(
        here,
        growing,
        &mut locals,
        &TypedTarget { target, ty },
        term,
    )?;
    put_taken(growing, target, condition)
}

/// The value of a target is passed to an item, where it has one.
pub fn emit_context(
    here: &LoweringScene,
    growing: &mut Growing,
    entry: TargetEntry,
    ty: &Ty,
    item: u32,
    term: Option<&DefaultTerm>,
) -> Result<(), AllocError>
    ensures { OnOk result (Grown growing.old growing.new
        (words.context_code (standing_at here.now) entry ty.now item (option_copied term.entry))) }
{
    let mut locals = List::new(here.alloc);
    let target = fitting(growing.targets.len())?;
    put_target(growing, entry)?;
    emit_judged(
        here,
        growing,
        &mut locals,
        &TypedTarget { target, ty },
        term,
    )?;
    let taken = put_open(growing, Instr::Take(0))?;
    put(growing, Instr::Pass(item))?;
    let end = place(growing)?;
    patch(growing, taken, Instr::Take(end));
    Ok(())
}
