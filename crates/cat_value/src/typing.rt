// Whether a value is of a type.
ghost use Rattle.std.specs.Prelude.{◌≡◌};
ghost use Rattle.cat_num.specs.Whole.{fits};
ghost use Rattle.cat_date.specs.Calendar.{is_day};
ghost use Rattle.cat_date.specs.Span.{is_span};
ghost use Rattle.cat_value.specs.Typing.{has_type, elements_typed, fields_have_types, is_structure, is_case};
ghost use Rattle.cat_value.specs.Typing.{content_has_type, is_type};
ghost use Rattle.cat_value.specs.Flat.{is_decimal};

use crate::{Decls, Fields, Ty, Value, Values};
use cat_date::{Day, Span, number};
use cat_num::{Frac, Money, Whole};
use cat_pos::Boxed;

/// The most elements that a list has.
const MOST_ELEMENTS: usize = i64::MAX as usize;

/// Whether the value is one of the type: not, where the number in the type names no entry of the declarations.
#[cycle(well_typed)]
#[tactic(auto, unfolding(crate::specs::Typing::has_type), using(crate::proofs::Equations::typing))]
pub fn well_typed(value: &Value, ty: &Ty, decls: &Decls) -> bool
    ensures { result ≡ has_type decls.now value.now ty.now }
{
    match value {
        Value::Boolean(_) => matches!(ty, Ty::Boolean),
        Value::Integer(whole) => matches!(ty, Ty::Integer) && whole_fits(*whole),
        Value::Decimal(frac) => matches!(ty, Ty::Decimal) && frac_fits(*frac),
        Value::Money(money) => matches!(ty, Ty::Money) && money_fits(*money),
        Value::Date(day) => matches!(ty, Ty::Date) && day_is_in_range(*day),
        Value::Duration(span) => matches!(ty, Ty::Duration) && span_fits(*span),
        Value::List(elements) => match ty {
            Ty::List(element) => is_list_of(elements, element.get(), decls),
            _ => false,
        },
        Value::Structure(values) => match ty {
            Ty::Structure(structure) => is_structure(values, *structure, decls),
            _ => false,
        },
        Value::Case(case, content) => match ty {
            Ty::Enumeration(enumeration) => is_case(*case, content, *enumeration, decls),
            _ => false,
        },
    }
}

#[cycle(well_typed)]
fn is_list_of(elements: &Values, ty: &Ty, decls: &Decls) -> bool
    ensures { result ≡ elements_typed decls.now elements.now ty.now }
{
    if elements.len() > MOST_ELEMENTS || !is_declared(ty, decls) {
        return false;
    }
    for element in elements.as_slice() {
        if !well_typed(element, ty, decls) {
            return false;
        }
    }
    true
}

#[cycle(well_typed)]
fn are_fields(values: &Values, fields: &Fields, decls: &Decls) -> bool
    ensures { result ≡ fields_have_types decls.now values.now fields.now }
{
    if values.len() != fields.len() {
        return false;
    }
    let fields = fields.as_slice();
    for (i, value) in values.as_slice().iter().enumerate() {
        if !well_typed(value, &fields[i].ty, decls) {
            return false;
        }
    }
    true
}

#[cycle(well_typed)]
fn is_structure(values: &Values, structure: u32, decls: &Decls) -> bool
    ensures { result ≡ is_structure decls.now structure values.now }
{
    match decls.structures.get(structure as usize) {
        Some(structure) => are_fields(values, &structure.fields, decls),
        None => false,
    }
}

#[cycle(well_typed)]
fn is_case(case: u32, content: &Option<Boxed<Value>>, enumeration: u32, decls: &Decls) -> bool
    ensures { result ≡ is_case decls.now enumeration case content.now }
{
    match decls.enumerations.get(enumeration as usize) {
        Some(enumeration) => match enumeration.cases.get(case as usize) {
            Some(case) => is_content(content, &case.content, decls),
            None => false,
        },
        None => false,
    }
}

#[cycle(well_typed)]
fn is_content(content: &Option<Boxed<Value>>, wanted: &Option<Ty>, decls: &Decls) -> bool
    ensures { result ≡ content_has_type decls.now content.now wanted.now }
{
    match (content, wanted) {
        (None, None) => true,
        (Some(content), Some(ty)) => well_typed(content.get(), ty, decls),
        _ => false,
    }
}

/// Whether the number in the type, where it has one, names an entry.
#[tactic(auto, using(crate::proofs::Equations::declared))]
pub fn is_declared(ty: &Ty, decls: &Decls) -> bool
    ensures { result ≡ is_type decls.now ty.now }
{
    match ty {
        Ty::List(element) => is_declared(element.get(), decls),
        Ty::Structure(structure) => (*structure as usize) < decls.structures.len(),
        Ty::Enumeration(enumeration) => (*enumeration as usize) < decls.enumerations.len(),
        Ty::Boolean | Ty::Integer | Ty::Decimal | Ty::Money | Ty::Date | Ty::Duration => true,
    }
}

/// What the types of numbers, days and durations keep: this and the four tests below pass each of their values.
pub fn whole_fits(whole: Whole) -> bool
    ensures { result ≡ fits whole }
{
    whole.get() != i64::MIN
}

pub fn money_fits(money: Money) -> bool
    ensures { result ≡ fits money }
{
    money.get() != i64::MIN
}

fn frac_fits(frac: Frac) -> bool
    ensures { result ≡ is_decimal frac }
{
    frac.den() > 0
}

pub fn day_is_in_range(day: Day) -> bool
    ensures { result ≡ is_day day }
{
    let _number = number(day);
    true
}

pub fn span_fits(span: Span) -> bool
    ensures { result ≡ is_span span }
{
    span.months() != i64::MIN && span.days() != i64::MIN
}
