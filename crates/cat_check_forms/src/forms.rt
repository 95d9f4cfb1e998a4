// Forms whose parts are expressions that are known.
ghost use Rattle.std.specs.Prelude.{◌≡◌, Ok, IfOk};
ghost use Rattle.cat_value.specs.declared.ty.Ty.TheVariants as flat_ty;
ghost use Rattle.cat_scope.specs.declared.expr.Expr.TheViews as expr;
ghost use Rattle.cat_names.specs.declared.fault.Fault.TheVariants as faults;
ghost use Rattle.cat_names.specs.Forms as words;
ghost use Rattle.cat_names.specs.Found.{Tells, or_fault, where_true};
ghost use Rattle.cat_names.specs.Naming.{typed};
ghost use Rattle.cat_names.specs.Types as types;
ghost use Rattle.cat_check_forms.specs.Tabled.{IsTabled, names_at};
ghost use Rattle.cat_check_forms.specs.Taken.{element_bound};

use crate::Here;
use crate::heights::list_type;
use cat_check_operators::{Resolved, element_of, enumeration_of, is_boolean, structure_of};
use cat_names::{Fault, Local, Refusal};
use cat_pos::Pos;
use cat_scope::Expr;
use cat_tree::{Each, Name};
use cat_value::{Ty, copy_ty};
use std::alloc::{AllocError, Global};

/// A field of a structure.
pub fn field(here: &Here, base: Resolved, name: &Name) -> Result<Resolved, Refusal>
    requires { IsTabled here.now }
    ensures { Tells result (words.field_of (names_at here.now) name.now base) }
{
    let Some(structure) = structure_of(base.ty()) else {
        return Err(Refusal::Refused(Fault::TypeMismatch(base.first())));
    };
    let Some((number, ty)) = here.tables.field(here.decls, structure, &name.text) else {
        return Err(Refusal::Refused(Fault::NameUnknown(name.pos)));
    };
    let ty = copy_ty(here.alloc, ty)?;
    let first = base.first();
    let expr = Expr::Field(first, base.into_expr(), number);
    Resolved::new(here.alloc, first, first, expr, ty)
}

/// A choice between two branches of one type.
pub fn choice(
    alloc: Global,
    place: Pos,
    test: Resolved,
    yes: Resolved,
    no: Resolved,
) -> Result<Resolved, Refusal>
    ensures { Tells result (words.if_of place test (yes, no)) }
{
    if !is_boolean(test.ty()) {
        return Err(Refusal::Refused(Fault::TypeMismatch(place)));
    }
    let (yes, ty) = yes.into_parts();
    let expr = Expr::If(place, test.into_expr(), yes, no.into_expr());
    Resolved::new(alloc, place, place, expr, ty)
}

/// A test for a case of the enumeration of what is tested.
pub fn test(
    alloc: Global,
    place: Pos,
    tested: Resolved,
    case: (u32, u32),
) -> Result<Resolved, Refusal>
    ensures { Tells result (words.test_of place tested case) }
{
    let Some(enumeration) = enumeration_of(tested.ty()) else {
        return Err(Refusal::Refused(Fault::TypeMismatch(place)));
    };
    if case.0 != enumeration {
        return Err(Refusal::Refused(Fault::TypeMismatch(place)));
    }
    let first = tested.first();
    let expr = Expr::IsCase(first, tested.into_expr(), enumeration, case.1);
    Resolved::new(alloc, first, place, expr, Ty::Boolean)
}

/// The number of the enumeration whose cases are matched.
pub fn matched_type(place: Pos, tested: &Resolved) -> Result<u32, Refusal>
    ensures { Tells result (or_fault (faults.TypeMismatch place) (types.enumeration_of tested.now.ty)) }
{
    match enumeration_of(tested.ty()) {
        Some(enumeration) => Ok(enumeration),
        None => Err(Refusal::Refused(Fault::TypeMismatch(place))),
    }
}

/// The type of a list's elements, where it is a list.
fn element_type(alloc: Global, place: Pos, list: &Resolved) -> Result<Ty, Refusal>
    ensures { Tells result (or_fault (faults.TypeMismatch place) (types.element_of list.now.ty)) }
{
    match element_of(list.ty()) {
        Some(ty) => Ok(copy_ty(alloc, ty)?),
        None => Err(Refusal::Refused(Fault::TypeMismatch(place))),
    }
}

/// The name of a form over a list, bound to its elements.
pub fn element_local(
    alloc: Global,
    place: Pos,
    name: &Name,
    list: &Resolved,
) -> Result<Local, Refusal>
    ensures { Tells result (element_bound place name.now list.now) }
{
    let ty = element_type(alloc, place, list)?;
    Ok(bound(alloc, name, ty)?)
}

/// A name that is bound to something of that type.
pub fn bound(alloc: Global, name: &Name, ty: Ty) -> Result<Local, AllocError>
    ensures { IfOk result (λ local. local ≡ words.bound name.now ty) }
{
    let name = name.text.copy()?;
    Ok(Local { name, ty })
}

/// The accumulator of `combine`, which has the type of the start.
pub fn start_local(alloc: Global, name: &Name, start: &Resolved) -> Result<Local, AllocError>
    ensures { IfOk result (λ local. local ≡ words.bound name.now start.now.ty) }
{
    let ty = copy_ty(alloc, start.ty())?;
    bound(alloc, name, ty)
}

/// A form that goes over a list, with its body.
pub fn each(
    here: &Here,
    form: Each,
    place: Pos,
    list: Resolved,
    body: Resolved,
) -> Result<Resolved, Refusal>
    requires { IsTabled here.now }
    ensures { Tells result (words.each_of (names_at here.now) form place list body) }
{
    match form {
        Each::ForAll => for_all(here.alloc, place, list, body),
        Each::Exists => exists(here.alloc, place, list, body),
        Each::MapEach => map_each(here, place, list, body),
        Each::ListOf => list_of_those(here.alloc, place, list, body),
    }
}

fn for_all(alloc: Global, place: Pos, list: Resolved, test: Resolved) -> Result<Resolved, Refusal>
    ensures { Tells result (where_true (types.same flat_ty.Boolean test.ty) (faults.TypeMismatch place)
        (Ok (typed place (expr.ForAll place list.expr test.expr) flat_ty.Boolean))) }
{
    if !is_boolean(test.ty()) {
        return Err(Refusal::Refused(Fault::TypeMismatch(place)));
    }
    let expr = Expr::ForAll(place, list.into_expr(), test.into_expr());
    Resolved::new(alloc, place, place, expr, Ty::Boolean)
}

fn exists(alloc: Global, place: Pos, list: Resolved, test: Resolved) -> Result<Resolved, Refusal>
    ensures { Tells result (where_true (types.same flat_ty.Boolean test.ty) (faults.TypeMismatch place)
        (Ok (typed place (expr.Exists place list.expr test.expr) flat_ty.Boolean))) }
{
    if !is_boolean(test.ty()) {
        return Err(Refusal::Refused(Fault::TypeMismatch(place)));
    }
    let expr = Expr::Exists(place, list.into_expr(), test.into_expr());
    Resolved::new(alloc, place, place, expr, Ty::Boolean)
}

fn map_each(here: &Here, place: Pos, list: Resolved, body: Resolved) -> Result<Resolved, Refusal>
    requires { IsTabled here.now }
    ensures { Tells result (words.low_list (names_at here.now) place (expr.Map place list.expr body.expr) body.ty) }
{
    let ty = list_type(here, place, body.ty())?;
    let expr = Expr::Map(place, list.into_expr(), body.into_expr());
    Resolved::new(here.alloc, place, place, expr, ty)
}

fn list_of_those(
    alloc: Global,
    place: Pos,
    list: Resolved,
    test: Resolved,
) -> Result<Resolved, Refusal>
    ensures { Tells result (where_true (types.same flat_ty.Boolean test.ty) (faults.TypeMismatch place)
        (Ok (typed place (expr.Filter place list.expr test.expr) list.ty))) }
{
    if !is_boolean(test.ty()) {
        return Err(Refusal::Refused(Fault::TypeMismatch(place)));
    }
    let (list, ty) = list.into_parts();
    let expr = Expr::Filter(place, list, test.into_expr());
    Resolved::new(alloc, place, place, expr, ty)
}

/// What comes of combining the elements of a list, with its start and its body.
pub fn combine(
    alloc: Global,
    place: Pos,
    list: Resolved,
    start: Resolved,
    body: Resolved,
) -> Result<Resolved, Refusal>
    ensures { Tells result (words.combine_of place list start body) }
{
    let (start, ty) = start.into_parts();
    let expr = Expr::Combine(place, list.into_expr(), start, body.into_expr());
    Resolved::new(alloc, place, place, expr, ty)
}
