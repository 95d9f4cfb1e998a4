// The default of each type.
ghost use Rattle.std.specs.Prelude.{◌≡◌, ◌≤◌, IfOk, IsTrue};
ghost use Rattle.cat_value.specs.Heights.{height_to, highest_field};
ghost use Rattle.std.specs.List.{list_all};
ghost use Rattle.cat_value.specs.Declarations.{field_is_sound};
ghost use Rattle.cat_value.specs.Typing.{is_type};
ghost use Rattle.cat_value.specs.Defaults.{default_of, default_to, default_fields};

use crate::{Decls, Fields, Ty, Value, Values};
use cat_date::{Day, Span};
use cat_num::{DecimalLiteral, Money, Whole, frac_of_decimal};
use cat_pos::{Boxed, List};
use std::alloc::{AllocError, Global};

/// No declared type is higher.
const HIGHEST: u32 = 64;

/// The number of 0001-01-01.
const FIRST_DAY: i64 = -719_162;

/// The default of a type: false, 0, 0.00, 0001-01-01, the zero duration, the empty list, each field's default, the
/// first case with its content's default. It isn't the smallest number.
pub fn least_value(alloc: Global, ty: &Ty, decls: &Decls) -> Result<Value, AllocError>
    requires { IsTrue (is_type decls.now ty.now) }
    ensures { IfOk result (λ value. value ≡ default_of decls.now ty.now) }
{
    match ty {
        Ty::List(_) => Ok(Value::List(List::new(alloc))),
        _ => least_at(alloc, ty, decls, HIGHEST),
    }
}

/// The default of a type that is at most `depth` high.
#[cycle(least)]
#[tactic(auto, using(crate::proofs::Descending::descending, crate::proofs::DefaultEquations::defaults))]
fn least_at(alloc: Global, ty: &Ty, decls: &Decls, depth: u32) -> Result<Value, AllocError>
    requires declared { IsTrue (is_type decls.now ty.now) }
    requires height { height_to decls.now.structures decls.now.enumerations depth ty.now ≤ depth }
    ensures { IfOk result (λ value. value ≡ default_to decls.now depth ty.now) }
{
    let below = depth - 1;
    match ty {
        Ty::Boolean => Ok(Value::Boolean(false)),
        Ty::Integer => Ok(Value::Integer(Whole::new(0).unwrap())),
        Ty::Decimal => Ok(Value::Decimal(frac_of_decimal(DecimalLiteral::new(0, 0).unwrap()))),
        Ty::Money => Ok(Value::Money(Money::new(0).unwrap())),
        Ty::Date => Ok(Value::Date(Day::from_number(FIRST_DAY))),
        Ty::Duration => Ok(Value::Duration(Span::from_parts(0, 0))),
        Ty::List(_) => Ok(Value::List(List::new(alloc))),
        Ty::Structure(structure) => {
            let structure = decls.structures.at(*structure as usize);
            let fields = least_fields(alloc, &structure.fields, decls, below)?;
            Ok(Value::Structure(fields))
        }
        Ty::Enumeration(enumeration) => {
            let enumeration = decls.enumerations.at(*enumeration as usize);
            let case = enumeration.cases.at(0);
            match &case.content {
                None => Ok(Value::Case(0, None)),
                Some(content) => {
                    let content = least_at(alloc, content, decls, below)?;
                    let content = Boxed::new(alloc, content)?;
                    Ok(Value::Case(0, Some(content)))
                }
            }
        }
    }
}

#[cycle(least)]
fn least_fields(
    alloc: Global,
    fields: &Fields,
    decls: &Decls,
    depth: u32,
) -> Result<Values, AllocError>
    requires declared { IsTrue (list_all (field_is_sound decls.now.structures decls.now.enumerations) fields.now) }
    requires height { highest_field (height_to decls.now.structures decls.now.enumerations depth) fields.now ≤ depth }
    ensures { IfOk result (λ values. values ≡ default_fields (default_to decls.now depth) fields.now) }
{
    let mut values = List::new(alloc);
    for field in fields.as_slice() {
        values.push(least_at(alloc, &field.ty, decls, depth)?)?;
    }
    Ok(values)
}
