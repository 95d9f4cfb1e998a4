// Values that have a point.
ghost use Rattle.std.specs.Prelude.{◌≡◌, Some, IfOk, IsTrue};
ghost use Rattle.cat_num.specs.Whole.{fits};
ghost use Rattle.cat_num.specs.Frac.{is_reduced};
ghost use Rattle.cat_date.specs.Calendar.{is_day};
ghost use Rattle.cat_value.specs.declared.ty.Ty.TheVariants.{Enumeration as enumeration};
ghost use Rattle.cat_value.specs.declared.ty.Ty.TheViews.{out-Ty};
ghost use Rattle.cat_value.specs.Defaults.{default_of};
ghost use Rattle.cat_value.specs.Entries.{content_of};
ghost use Rattle.cat_value.specs.Typing.{is_type};
ghost use Rattle.cat_audit_sound.specs.PointInputs.{case_with, value_at, with_point};
ghost use Rattle.cat_audit_sound.specs.inside.TypedParts.{IsPart, IsPartOr};

use cat_pos::Boxed;
use cat_region::Point;
use cat_value::{Decls, Ty, Value, defaults_are_well_typed, least_value};
use std::alloc::{AllocError, Global};

/// The default of a type.
fn default_of(alloc: Global, decls: &Decls, ty: &Ty) -> Result<Value, AllocError>
    requires { IsTrue (is_type decls.now ty.now) }
    ensures { IfOk result (λ value. IsPart decls.now ty.now (default_of decls.now ty.now) value) }
{
    defaults_are_well_typed(ty, decls);
    let value = least_value(alloc, ty, decls)?;
    Ok(value)
}

/// A case with the default of its content, where there is such a case.
fn case_with(
    alloc: Global,
    decls: &Decls,
    number: u32,
    case: u32,
) -> Result<Option<Value>, AllocError>
    ensures { IfOk result (λ found.
        IsPartOr decls.now (enumeration number) (case_with decls.now case (content_of decls.now number case)) found) }
{
    let Some(found) = decls.enumerations.get(number as usize) else {
        return Ok(None);
    };
    let Some(found) = found.cases.get(case as usize) else {
        return Ok(None);
    };
    match &found.content {
        None => Ok(Some(Value::Case(case, None))),
        Some(content) => {
            let content = default_of(alloc, decls, content)?;
            let content = Boxed::new(alloc, content)?;
            Ok(Some(Value::Case(case, Some(content))))
        }
    }
}

/// The value of a type in which cuts see a point, where there is one.
#[tactic(auto, using(crate::proofs::TypedLaws::typed_points))]
fn value_at(
    alloc: Global,
    decls: &Decls,
    ty: &Ty,
    point: Point,
) -> Result<Option<Value>, AllocError>
    ensures { IfOk result (λ found. IsPartOr decls.now ty.now (value_at decls.now (out-Ty ty.now) point) found) }
{
    match (ty, point) {
        (Ty::Boolean, Point::Truth(truth)) => Ok(Some(Value::Boolean(truth))),
        (Ty::Integer, Point::Whole(whole)) => Ok(Some(Value::Integer(whole))),
        (Ty::Decimal, Point::Decimal(frac)) => Ok(Some(Value::Decimal(frac))),
        (Ty::Money, Point::Money(money)) => Ok(Some(Value::Money(money))),
        (Ty::Date, Point::Day(day)) => Ok(Some(Value::Date(day))),
        (Ty::Enumeration(number), Point::Case(case)) => case_with(alloc, decls, *number, case),
        _ => Ok(None),
    }
}

/// The value of a type that has a point, or the default where none is given or there is no such value.
pub fn with_point(
    alloc: Global,
    decls: &Decls,
    ty: &Ty,
    point: Option<Point>,
) -> Result<Value, AllocError>
    requires { IsTrue (is_type decls.now ty.now) }
    ensures { IfOk result (λ value. IsPart decls.now ty.now (with_point decls.now ty.now point) value) }
{
    let Some(point) = point else {
        return default_of(alloc, decls, ty);
    };
    match value_at(alloc, decls, ty, point)? {
        Some(value) => Ok(value),
        None => default_of(alloc, decls, ty),
    }
}
