// The types of expressions.
ghost use Rattle.std.specs.Prelude.{◌≡◌, ◌-◌, ◌++◌, ◌∷◌, [], Some, None, IfOk, OnOk, length, map, take};
ghost use Rattle.std.specs.Option.{option_copied};
ghost use Rattle.cat_value.specs.declared.ty.Ty.TheViews.{out-Ty};
ghost use Rattle.cat_value.specs.declared.ty.Ty.TheViews as ty;
ghost use Rattle.cat_lower.specs.Types as words;
ghost use Rattle.cat_lower.specs.Expressions.{lowered};
ghost use Rattle.cat_lower.specs.Told.{standing_at};

use crate::LoweringScene;
use crate::lookups::{
    content_type, element_expected, element_type, enumeration_in, field_in, item_type, type_or,
};
use crate::numbers::{given, literal_ty, result_type, summed};
use crate::outputs::{called_output, output_of};
use cat_pos::Boxed;
use cat_scope::{Arm, ArmPattern, Arms, Expr, Exprs};
use cat_value::{Ty, Tys, copy_ty};
use std::alloc::AllocError;

/// Takes off the innermost name.
pub fn unbind(locals: &mut Tys)
    ensures { locals.new ≡ take (length locals.old - 1) locals.old }
{
    locals.pop();
}

/// The type of an expression under local names of these types, where one may be expected.
#[cycle(typing)]
#[tactic(auto, using(crate::proofs::TypesOf::typed_Literal, crate::proofs::TypesOf::typed_Item, crate::proofs::TypesOf::typed_Output, crate::proofs::TypesOf::typed_Local, crate::proofs::TypesOf::typed_Field, crate::proofs::TypesOf::typed_Unary, crate::proofs::TypesOf::typed_Binary, crate::proofs::TypesOf::typed_And, crate::proofs::TypesOf::typed_Or, crate::proofs::TypesOf::typed_If, crate::proofs::TypesOf::typed_Match, crate::proofs::TypesOf::typed_IsCase, crate::proofs::TypesOf::typed_Case_None, crate::proofs::TypesOf::typed_Case_Some, crate::proofs::TypesOf::typed_Structure, crate::proofs::TypesOf::typed_List, crate::proofs::TypesOf::typed_ForAll, crate::proofs::TypesOf::typed_Exists, crate::proofs::TypesOf::typed_Map, crate::proofs::TypesOf::typed_Filter, crate::proofs::TypesOf::typed_Combine, crate::proofs::TypesOf::typed_Contains, crate::proofs::TypesOf::typed_Length, crate::proofs::TypesOf::typed_Sum, crate::proofs::TypesOf::typed_Call, crate::proofs::TypesOf::typed_ScopeCall))]
pub fn type_of(
    here: &LoweringScene,
    locals: &mut Tys,
    e: &Expr,
    expected: Option<&Ty>,
) -> Result<Ty, AllocError>
    ensures ty { IfOk result
        (λ t. t ≡ (lowered (standing_at here.now) e.now).type locals.old (option_copied expected.entry)) }
    ensures kept { OnOk result (locals.new ≡ locals.old) }
{
    match e {
        Expr::Literal(_, literal) => Ok(literal_ty(*literal)),
        Expr::Item(_, item) => item_type(here.alloc, here.items.get(*item as usize)),
        Expr::Output(_, item, output) => item_type(here.alloc, called_output(here, *item, *output)),
        Expr::Local(_, local) => type_or(here.alloc, locals.get(*local as usize)),
        Expr::Field(_, of, field) => type_of_field(here, locals, of, *field),
        Expr::Unary(_, op, _) => Ok(given(*op)),
        Expr::Binary(_, op, _, _, _) => Ok(result_type(*op)),
        Expr::And(_, _, _) => Ok(Ty::Boolean),
        Expr::Or(_, _, _) => Ok(Ty::Boolean),
        Expr::If(_, _, yes, _) => type_of(here, locals, yes.get(), expected),
        Expr::Match(_, of, arms) => type_of_match(here, locals, of, arms.get(), expected),
        Expr::IsCase(_, _, _, _) => Ok(Ty::Boolean),
        Expr::Case(_, enumeration, _, None) => Ok(Ty::Enumeration(*enumeration)),
        Expr::Case(_, enumeration, _, Some(_)) => Ok(Ty::Enumeration(*enumeration)),
        Expr::Structure(_, structure, _) => Ok(Ty::Structure(*structure)),
        Expr::List(_, elements) => type_of_row(here, locals, elements, expected),
        Expr::ForAll(_, _, _) => Ok(Ty::Boolean),
        Expr::Exists(_, _, _) => Ok(Ty::Boolean),
        Expr::Map(_, list, body) => type_of_map(here, locals, list, body),
        Expr::Filter(_, list, _) => type_of(here, locals, list.get(), None),
        Expr::Combine(_, _, start, _) => type_of(here, locals, start.get(), None),
        Expr::Contains(_, _, _, _) => Ok(Ty::Boolean),
        Expr::Length(_, _) => Ok(Ty::Integer),
        Expr::Sum(_, kind, _) => Ok(summed(*kind)),
        Expr::Call(_, function, _) => item_type(here.alloc, here.items.get(*function as usize)),
        Expr::ScopeCall(_, scope, _, output) => item_type(
            here.alloc,
            output_of(here, *scope, *output),
        ),
    }
}

/// The same of a part.
pub fn type_of_part(
    here: &LoweringScene,
    locals: &mut Tys,
    part: &Boxed<Expr>,
    expected: Option<&Ty>,
) -> Result<Ty, AllocError>
    ensures ty { IfOk result
        (λ t. t ≡ (lowered (standing_at here.now) part.now).type locals.old (option_copied expected.entry)) }
    ensures kept { OnOk result (locals.new ≡ locals.old) }
{
    type_of(here, locals, part.get(), expected)
}

/// The type of the elements of a list.
pub fn element_of(
    here: &LoweringScene,
    locals: &mut Tys,
    list: &Boxed<Expr>,
) -> Result<Ty, AllocError>
    ensures ty { IfOk result
        (λ t. t ≡ words.element_type ((lowered (standing_at here.now) list.now).type locals.old None)) }
    ensures kept { OnOk result (locals.new ≡ locals.old) }
{
    let ty = type_of(here, locals, list.get(), None)?;
    element_type(here.alloc, &ty)
}

/// The enumeration of a subject.
pub fn enumeration_of(
    here: &LoweringScene,
    locals: &mut Tys,
    of: &Boxed<Expr>,
) -> Result<u32, AllocError>
    ensures number { IfOk result
        (λ n. n ≡ words.enumeration_in (out-Ty ((lowered (standing_at here.now) of.now).type locals.old None))) }
    ensures kept { OnOk result (locals.new ≡ locals.old) }
{
    let ty = type_of(here, locals, of.get(), None)?;
    Ok(enumeration_in(&ty))
}

#[cycle(typing)]
fn type_of_field(
    here: &LoweringScene,
    locals: &mut Tys,
    of: &Boxed<Expr>,
    field: u32,
) -> Result<Ty, AllocError>
    ensures ty { IfOk result
        (λ t. t ≡ words.field_in here.now.decls.now field
        (out-Ty ((lowered (standing_at here.now) of.now).type locals.old None))) }
    ensures kept { OnOk result (locals.new ≡ locals.old) }
{
    let ty = type_of(here, locals, of.get(), None)?;
    field_in(here, field, &ty)
}

/// The same under one local name more.
#[cycle(typing)]
fn type_under(
    here: &LoweringScene,
    locals: &mut Tys,
    ty: Ty,
    e: &Expr,
    expected: Option<&Ty>,
) -> Result<Ty, AllocError>
    ensures ty { IfOk result
        (λ t. t ≡ (lowered (standing_at here.now) e.now).type (locals.old ++ ty ∷ []) (option_copied expected.entry)) }
    ensures kept { OnOk result (locals.new ≡ locals.old) }
{
    locals.push(ty)?;
    let found = type_of(here, locals, e, expected)?;
    unbind(locals);
    Ok(found)
}

#[cycle(typing)]
pub fn type_of_map(
    here: &LoweringScene,
    locals: &mut Tys,
    list: &Boxed<Expr>,
    body: &Boxed<Expr>,
) -> Result<Ty, AllocError>
    ensures ty { IfOk result (λ t. t ≡ ty.List ((lowered (standing_at here.now) body.now).type
        (locals.old ++ words.element_type ((lowered (standing_at here.now) list.now).type locals.old None) ∷ [])
        None)) }
    ensures kept { OnOk result (locals.new ≡ locals.old) }
{
    let list = type_of(here, locals, list.get(), None)?;
    let element = element_type(here.alloc, &list)?;
    let body = type_under(here, locals, element, body.get(), None)?;
    let body = Boxed::new(here.alloc, body)?;
    Ok(Ty::List(body))
}

#[cycle(typing)]
fn type_of_row(
    here: &LoweringScene,
    locals: &mut Tys,
    elements: &Exprs,
    expected: Option<&Ty>,
) -> Result<Ty, AllocError>
    ensures ty { IfOk result
        (λ t. t ≡ words.row_type (map (lowered (standing_at here.now)) elements.now) locals.old
        (option_copied expected.entry)) }
    ensures kept { OnOk result (locals.new ≡ locals.old) }
{
    match elements.as_slice() {
        [] => type_or(here.alloc, expected),
        [first, _rest @ ..] => {
            let wanted = element_expected(here.alloc, expected)?;
            let element = type_of(here, locals, first, wanted.as_ref())?;
            let element = Boxed::new(here.alloc, element)?;
            Ok(Ty::List(element))
        }
    }
}

#[cycle(typing)]
pub fn type_of_match(
    here: &LoweringScene,
    locals: &mut Tys,
    of: &Boxed<Expr>,
    arms: &Arms,
    expected: Option<&Ty>,
) -> Result<Ty, AllocError>
    ensures ty { IfOk result (λ t. t ≡ words.arms_type here.now.decls.now
        (words.enumeration_in (out-Ty ((lowered (standing_at here.now) of.now).type locals.old None)))
        (map (λ a. (a.pattern, lowered (standing_at here.now) a.body)) arms.now) locals.old
        (option_copied expected.entry)) }
    ensures kept { OnOk result (locals.new ≡ locals.old) }
{
    match arms.as_slice() {
        [] => type_or(here.alloc, expected),
        [first, _rest @ ..] => {
            let ty = type_of(here, locals, of.get(), None)?;
            type_of_arm(here, locals, enumeration_in(&ty), first, expected)
        }
    }
}

#[cycle(typing)]
fn type_of_arm(
    here: &LoweringScene,
    locals: &mut Tys,
    enumeration: u32,
    arm: &Arm,
    expected: Option<&Ty>,
) -> Result<Ty, AllocError>
    ensures ty { IfOk result (λ t. t ≡ (lowered (standing_at here.now) arm.now.body).type
        (words.arm_types here.now.decls.now enumeration arm.now.pattern locals.old) (option_copied expected.entry)) }
    ensures kept { OnOk result (locals.new ≡ locals.old) }
{
    match arm.pattern {
        ArmPattern::Case(case, true) => {
            let content = type_or(here.alloc, content_type(here, enumeration, case))?;
            type_under(here, locals, content, &arm.body, expected)
        }
        ArmPattern::Case(_, false) => type_of(here, locals, &arm.body, expected),
        ArmPattern::Anything => type_of(here, locals, &arm.body, expected),
    }
}
