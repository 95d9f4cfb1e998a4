// The code of terms.
ghost use Rattle.std.specs.Prelude.{◌≡◌, ◌+◌, OnOk, map};
ghost use Rattle.cat_code.specs.declared.instr.Instr.TheVariants as instr;
ghost use Rattle.cat_lower.specs.Grown.{Grown};
ghost use Rattle.cat_lower.specs.Laying.{one, then_code, all_code, over};
ghost use Rattle.cat_lower.specs.Terms as words;
ghost use Rattle.cat_lower.specs.Told.{term_standing};

use crate::expressions::emit_shared;
use crate::growing::{patch, place, put, put_open};
use crate::puts::put_hold;
use crate::{Growing, LoweringScene};
use cat_calc::{DefaultTerm, DefaultTerms, Justification};
use cat_code::Instr;
use cat_pos::{Boxed, Shared};
use cat_scope::Expr;
use cat_value::{Ty, Tys};
use std::alloc::AllocError;

/// A target by its number, with the type of what its definitions give.
#[derive(Drop)]
pub struct TypedTarget<'a> {
    pub target: u32,
    pub ty: &'a Ty,
}

/// What a term comes to is added to the top default frame.
#[cycle(term)]
#[tactic(auto, using(crate::proofs::TermsOf::term_Consequence, crate::proofs::TermsOf::term_Default))]
pub fn emit_term(
    here: &LoweringScene,
    growing: &mut Growing,
    locals: &mut Tys,
    aim: &TypedTarget,
    term: &DefaultTerm,
) -> Result<(), AllocError>
    ensures grown { OnOk result (Grown growing.old growing.new
        (words.term_code (term_standing here.now aim.now locals.old) term.now)) }
    ensures kept { OnOk result (locals.new ≡ locals.old) }
{
    match term {
        DefaultTerm::Empty => Ok(()),
        DefaultTerm::Consequence(number, _, value) => {
            emit_consequence(here, growing, locals, aim, *number, value)
        }
        DefaultTerm::Default(exceptions, justification, consequence) => emit_default(
            here,
            growing,
            locals,
            aim,
            exceptions,
            justification,
            consequence,
        ),
    }
}

fn emit_consequence(
    here: &LoweringScene,
    growing: &mut Growing,
    locals: &mut Tys,
    aim: &TypedTarget,
    number: u32,
    value: &Shared<Expr>,
) -> Result<(), AllocError>
    ensures grown { OnOk result (Grown growing.old growing.new
        (then_code (words.value_code (term_standing here.now aim.now locals.old) value.now)
        (one (instr.Hold (here.now.definitions + number))))) }
    ensures kept { OnOk result (locals.new ≡ locals.old) }
{
    emit_shared(here, growing, locals, value, Some(aim.ty))?;
    put_hold(here, growing, number)
}

fn is_never(justification: &Justification) -> bool
    ensures { result ≡ words.is_never justification.now }
{
    match justification {
        Justification::Never => true,
        Justification::Always => false,
        Justification::Where(_) => false,
    }
}

/// Whether a default with exceptions, of which these are left behind the first one, wants a frame of its own.
fn wants_frame(justification: &Justification, rest: &[DefaultTerm]) -> bool
    ensures { result ≡ words.wants_frame justification.now rest.now }
{
    if !is_never(justification) {
        return true;
    }
    !rest.is_empty()
}

#[cycle(term)]
fn emit_default(
    here: &LoweringScene,
    growing: &mut Growing,
    locals: &mut Tys,
    aim: &TypedTarget,
    exceptions: &DefaultTerms,
    justification: &Justification,
    consequence: &Boxed<DefaultTerm>,
) -> Result<(), AllocError>
    ensures grown { OnOk result (Grown growing.old growing.new
        (words.default_code (term_standing here.now aim.now locals.old)
        (map (words.term_code (term_standing here.now aim.now locals.old)) exceptions.now) justification.now
        (words.term_code (term_standing here.now aim.now locals.old) consequence.now))) }
    ensures kept { OnOk result (locals.new ≡ locals.old) }
{
    let [first, rest @ ..] = exceptions.as_slice() else {
        return emit_justified(
            here,
            growing,
            locals,
            aim,
            justification,
            consequence,
            false,
        );
    };
    if !wants_frame(justification, rest) {
        return emit_term(here, growing, locals, aim, first);
    }
    emit_framed(
        here,
        growing,
        locals,
        aim,
        exceptions,
        justification,
        consequence,
    )
}

/// What holds where a justification does, in a frame that is `checked` behind it or not.
#[cycle(term)]
fn emit_justified(
    here: &LoweringScene,
    growing: &mut Growing,
    locals: &mut Tys,
    aim: &TypedTarget,
    justification: &Justification,
    consequence: &Boxed<DefaultTerm>,
    checked: bool,
) -> Result<(), AllocError>
    ensures grown { OnOk result (Grown growing.old growing.new
        (words.under (term_standing here.now aim.now locals.old) justification.now
        (words.checked_code (term_standing here.now aim.now locals.old) checked
        (words.term_code (term_standing here.now aim.now locals.old) consequence.now)))) }
    ensures kept { OnOk result (locals.new ≡ locals.old) }
{
    match justification {
        Justification::Never => Ok(()),
        Justification::Always => emit_checked(here, growing, locals, aim, consequence, checked),
        Justification::Where(test) => {
            emit_where(here, growing, locals, aim, test, consequence, checked)
        }
    }
}

#[cycle(term)]
fn emit_where(
    here: &LoweringScene,
    growing: &mut Growing,
    locals: &mut Tys,
    aim: &TypedTarget,
    test: &Shared<Expr>,
    consequence: &Boxed<DefaultTerm>,
    checked: bool,
) -> Result<(), AllocError>
    ensures grown { OnOk result (Grown growing.old growing.new
        (then_code (words.condition_code (term_standing here.now aim.now locals.old) test.now)
        (over (λ t. instr.JumpFalse t) (words.checked_code (term_standing here.now aim.now locals.old) checked
        (words.term_code (term_standing here.now aim.now locals.old) consequence.now))))) }
    ensures kept { OnOk result (locals.new ≡ locals.old) }
{
    emit_shared(here, growing, locals, test, None)?;
    let test = put_open(growing, Instr::JumpFalse(0))?;
    emit_checked(here, growing, locals, aim, consequence, checked)?;
    let end = place(growing)?;
    patch(growing, test, Instr::JumpFalse(end));
    Ok(())
}

#[cycle(term)]
fn emit_checked(
    here: &LoweringScene,
    growing: &mut Growing,
    locals: &mut Tys,
    aim: &TypedTarget,
    consequence: &Boxed<DefaultTerm>,
    checked: bool,
) -> Result<(), AllocError>
    ensures grown { OnOk result (Grown growing.old growing.new
        (words.checked_code (term_standing here.now aim.now locals.old) checked
        (words.term_code (term_standing here.now aim.now locals.old) consequence.now))) }
    ensures kept { OnOk result (locals.new ≡ locals.old) }
{
    emit_term(here, growing, locals, aim, consequence.get())?;
    if !checked {
        return Ok(());
    }
    put(growing, Instr::Check(aim.target))
}

/// A default in a frame of its own, which is merged into the one below.
#[cycle(term)]
fn emit_framed(
    here: &LoweringScene,
    growing: &mut Growing,
    locals: &mut Tys,
    aim: &TypedTarget,
    exceptions: &DefaultTerms,
    justification: &Justification,
    consequence: &Boxed<DefaultTerm>,
) -> Result<(), AllocError>
    ensures grown { OnOk result (Grown growing.old growing.new
        (words.framed (term_standing here.now aim.now locals.old)
        (map (words.term_code (term_standing here.now aim.now locals.old)) exceptions.now) justification.now
        (words.term_code (term_standing here.now aim.now locals.old) consequence.now))) }
    ensures kept { OnOk result (locals.new ≡ locals.old) }
{
    put(growing, Instr::Begin(aim.target))?;
    emit_exceptions(here, growing, locals, aim, exceptions)?;
    put(growing, Instr::Check(aim.target))?;
    emit_otherwise(here, growing, locals, aim, justification, consequence)?;
    put(growing, Instr::Merge)
}

#[cycle(term)]
fn emit_exceptions(
    here: &LoweringScene,
    growing: &mut Growing,
    locals: &mut Tys,
    aim: &TypedTarget,
    exceptions: &DefaultTerms,
) -> Result<(), AllocError>
    ensures grown { OnOk result (Grown growing.old growing.new
        (all_code (map (words.term_code (term_standing here.now aim.now locals.old)) exceptions.now))) }
    ensures kept { OnOk result (locals.new ≡ locals.old) }
{
    for exception in exceptions.as_slice() {
        emit_term(here, growing, locals, aim, exception)?;
    }
    Ok(())
}

/// What stands behind exceptions of which none holds.
#[cycle(term)]
fn emit_otherwise(
    here: &LoweringScene,
    growing: &mut Growing,
    locals: &mut Tys,
    aim: &TypedTarget,
    justification: &Justification,
    consequence: &Boxed<DefaultTerm>,
) -> Result<(), AllocError>
    ensures grown { OnOk result (Grown growing.old growing.new
        (words.otherwise (term_standing here.now aim.now locals.old) justification.now
        (words.term_code (term_standing here.now aim.now locals.old) consequence.now))) }
    ensures kept { OnOk result (locals.new ≡ locals.old) }
{
    if is_never(justification) {
        return Ok(());
    }
    let held = put_open(growing, Instr::Held(0))?;
    emit_justified(here, growing, locals, aim, justification, consequence, true)?;
    let end = place(growing)?;
    patch(growing, held, Instr::Held(end));
    Ok(())
}
