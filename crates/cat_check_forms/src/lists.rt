// Forms with lists of parts that are known.
ghost use Rattle.std.specs.Prelude.{◌≡◌, Ok, nat_eq};
ghost use Rattle.std.specs.Option.{option_copied};
ghost use Rattle.cat_value.specs.declared.ty.Ty.TheVariants as flat_ty;
ghost use Rattle.cat_scope.specs.declared.expr.Expr.TheViews as expr;
ghost use Rattle.cat_scope.specs.Fitting.{are_call_fields, are_complete, are_fields_of, numbers_in};
ghost use Rattle.cat_names.specs.declared.fault.Fault.TheVariants as faults;
ghost use Rattle.cat_names.specs.Found.{Tells, or_fault, where_true};
ghost use Rattle.cat_names.specs.Forms.{output_named};
ghost use Rattle.cat_names.specs.Naming.{typed};
ghost use Rattle.cat_names.specs.Parts.{list_of};
ghost use Rattle.cat_check_forms.specs.Tabled.{IsTabled, names_at};
ghost use Rattle.cat_check_forms.specs.Taken.{none_of};

use crate::Here;
use crate::complete::{are_call_fields, are_complete, are_fields_of};
use crate::heights::list_type;
use cat_check_operators::Resolved;
use cat_names::{Fault, Refusal};
use cat_pos::{Boxed, List, Pos};
use cat_scope::{Arms, Expr, Exprs, FieldValues};
use cat_tree::Name;
use cat_value::{Ty, copy_ty};
use std::alloc::Global;

/// The most elements of a list.
const MOST_ELEMENTS: usize = i64::MAX as usize;

/// A list of elements of that type.
pub fn list(here: &Here, place: Pos, elements: Exprs, element: &Ty) -> Result<Resolved, Refusal>
    requires { IsTabled here.now }
    ensures { Tells result (list_of (names_at here.now) place (elements, element.now)) }
{
    if elements.len() > MOST_ELEMENTS {
        return Err(Refusal::Refused(Fault::TypeMismatch(place)));
    }
    let ty = list_type(here, place, element)?;
    Resolved::new(here.alloc, place, place, Expr::List(place, elements), ty)
}

/// Whether a function of that many parameters may have so many arguments.
pub fn counted(place: Pos, args: usize, params: usize) -> Result<(), Refusal>
    ensures { Tells result (where_true (nat_eq args params) (faults.TypeMismatch place) (Ok tt)) }
{
    if args == params {
        Ok(())
    } else {
        Err(Refusal::Refused(Fault::TypeMismatch(place)))
    }
}

/// A call of the function of that number.
pub fn call(
    alloc: Global,
    place: Pos,
    function: u32,
    args: Exprs,
    ty: &Ty,
) -> Result<Resolved, Refusal>
    ensures { Tells result (Ok (typed place (expr.Call place function args) ty.now)) }
{
    let ty = copy_ty(alloc, ty)?;
    Resolved::new(alloc, place, place, Expr::Call(place, function, args), ty)
}

/// A structure of that number with its fields.
pub fn structure(
    here: &Here,
    place: Pos,
    structure: u32,
    values: FieldValues,
) -> Result<Resolved, Refusal>
    ensures { Tells result (where_true (are_fields_of here.now.decls.now structure (numbers_in values))
        (faults.TypeMismatch place)
        (Ok (typed place (expr.Structure place structure values) (flat_ty.Structure structure)))) }
{
    if !are_fields_of(here, structure, &values)? {
        return Err(Refusal::Refused(Fault::TypeMismatch(place)));
    }
    let expr = Expr::Structure(place, structure, values);
    Resolved::new(here.alloc, place, place, expr, Ty::Structure(structure))
}

/// An output of the scope of that number, which is given its inputs: the scope's name stands at `named`.
pub fn scope_call(
    here: &Here,
    place: Pos,
    named: Pos,
    scope: u32,
    values: FieldValues,
    output: (u32, Ty),
) -> Result<Resolved, Refusal>
    requires { IsTabled here.now }
    ensures { Tells result (where_true (are_call_fields here.now.decls.now scope (numbers_in values))
        (faults.TypeMismatch named) (Ok (typed place (expr.ScopeCall place scope values output.0) output.1))) }
{
    if !are_call_fields(here, scope, &values)? {
        return Err(Refusal::Refused(Fault::TypeMismatch(named)));
    }
    let (number, ty) = output;
    let values = Boxed::new(here.alloc, values)?;
    let expr = Expr::ScopeCall(place, scope, values, number);
    Resolved::new(here.alloc, place, place, expr, ty)
}

/// The output of that name of a scope, with its number and its type.
pub fn called_output(here: &Here, scope: u32, name: &Name) -> Result<(u32, Ty), Refusal>
    requires { IsTabled here.now }
    ensures { Tells result (or_fault (faults.NameUnknown name.now.pos)
        (output_named here.now.decls.now scope name.now.text)) }
{
    match here.tables.output(here.decls, scope, &name.text) {
        Some((number, ty)) => Ok((number, copy_ty(here.alloc, ty)?)),
        None => Err(Refusal::Refused(Fault::NameUnknown(name.pos))),
    }
}

/// A match of what has the type of an enumeration, with arms of that type.
pub fn matched(
    here: &Here,
    place: Pos,
    tested: Resolved,
    enumeration: u32,
    arms: Arms,
    ty: Ty,
) -> Result<Resolved, Refusal>
    ensures { Tells result (where_true (are_complete here.now.decls.now enumeration arms) (faults.MatchCases place)
        (Ok (typed place (expr.Match place tested.expr arms) ty))) }
{
    if !are_complete(here, enumeration, &arms)? {
        return Err(Refusal::Refused(Fault::MatchCases(place)));
    }
    let arms = Boxed::new(here.alloc, arms)?;
    let expr = Expr::Match(place, tested.into_expr(), arms);
    Resolved::new(here.alloc, place, place, expr, ty)
}

/// The elements of a list without any.
pub fn no_elements(alloc: Global, place: Pos, expected: Option<&Ty>) -> Result<(Exprs, Ty), Refusal>
    ensures { Tells result (none_of place (option_copied expected.entry)) }
{
    match expected {
        Some(ty) => Ok((List::new(alloc), copy_ty(alloc, ty)?)),
        None => Err(Refusal::Refused(Fault::TypeMismatch(place))),
    }
}
