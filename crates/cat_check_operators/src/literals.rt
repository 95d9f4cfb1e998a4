// Literals with their types.
ghost use Rattle.std.specs.Prelude.{◌≡◌, Some, None, if◌then◌else◌};
ghost use Rattle.cat_num.specs.Numerals.{is_numeral};
ghost use Rattle.cat_date.specs.Span.{is_span};
ghost use Rattle.cat_tree.specs.declared.expression.SurfaceLiteral.TheVariants as written;
ghost use Rattle.cat_scope.specs.Literals.{literal_fits, literal_type};
ghost use Rattle.cat_names.specs.Found.{Tells};
ghost use Rattle.cat_names.specs.Operations.{literal_of, literal_written, span_written};
ghost use Rattle.cat_check_operators.specs.inside.Years.{years_of};

use crate::Resolved;
use cat_date::{Span, span_times};
use cat_names::{Fault, Refusal};
use cat_num::{DecimalLiteral, Whole};
use cat_pos::Pos;
use cat_scope::{Expr, Literal};
use cat_tree::Unit;
use cat_value::{Ty, day_is_in_range, money_fits, span_fits, whole_fits};
use std::alloc::Global;

/// A literal, within its bound.
pub fn literal(
    alloc: Global,
    written: cat_tree::SurfaceLiteral,
    place: Pos,
) -> Result<Resolved, Refusal>
    ensures { Tells result (literal_of place (literal_written written)) }
{
    match written {
        cat_tree::SurfaceLiteral::Int(whole) => fitting(alloc, place, Literal::Integer(whole)),
        cat_tree::SurfaceLiteral::Dec(decimal) => fitting(alloc, place, Literal::Decimal(decimal)),
        cat_tree::SurfaceLiteral::Pct(decimal) => fitting(alloc, place, Literal::Decimal(decimal)),
        cat_tree::SurfaceLiteral::Money(money) => fitting(alloc, place, Literal::Money(money)),
        cat_tree::SurfaceLiteral::Date(day) => fitting(alloc, place, Literal::Date(day)),
        cat_tree::SurfaceLiteral::Boolean(truth) => fitting(alloc, place, Literal::Boolean(truth)),
        cat_tree::SurfaceLiteral::Span(number, unit) => duration(alloc, place, number, unit),
    }
}

/// A literal, where it keeps its bound.
fn fitting(alloc: Global, place: Pos, literal: Literal) -> Result<Resolved, Refusal>
    ensures { Tells result (literal_of place literal) }
{
    if !keeps_bound(&literal) {
        return Err(Refusal::Refused(Fault::TypeMismatch(place)));
    }
    let ty = type_of(&literal);
    Resolved::new(alloc, place, place, Expr::Literal(place, literal), ty)
}

fn type_of(literal: &Literal) -> Ty
    ensures { result ≡ literal_type literal.now }
{
    match literal {
        Literal::Boolean(_) => Ty::Boolean,
        Literal::Integer(_) => Ty::Integer,
        Literal::Decimal(_) => Ty::Decimal,
        Literal::Money(_) => Ty::Money,
        Literal::Date(_) => Ty::Date,
        Literal::Duration(_) => Ty::Duration,
    }
}

/// What the types of numbers, days and durations keep: this and the tests below pass each of their values.
fn keeps_bound(literal: &Literal) -> bool
    ensures { result ≡ literal_fits literal.now }
{
    match literal {
        Literal::Boolean(_) => true,
        Literal::Integer(whole) => whole_fits(*whole),
        Literal::Decimal(decimal) => decimal_fits(*decimal),
        Literal::Money(money) => money_fits(*money),
        Literal::Date(day) => day_is_in_range(*day),
        Literal::Duration(span) => span_fits(*span),
    }
}

fn decimal_fits(decimal: DecimalLiteral) -> bool
    ensures { result ≡ is_numeral decimal }
{
    let _digits = decimal.digits();
    true
}

/// So many years, months or days.
fn duration(alloc: Global, place: Pos, number: Whole, unit: Unit) -> Result<Resolved, Refusal>
    ensures { Tells result (literal_of place (literal_written (written.Span number unit))) }
{
    match span(number, unit) {
        Some(span) => fitting(alloc, place, Literal::Duration(span)),
        None => Err(Refusal::Refused(Fault::TypeMismatch(place))),
    }
}

fn span(number: Whole, unit: Unit) -> Option<Span>
    ensures { result ≡ (if is_span (span_written number unit) then Some (span_written number unit) else None) }
{
    match unit {
        Unit::Year => years(number),
        Unit::Month => Some(Span::from_parts(number.get(), 0)),
        Unit::Day => Some(Span::from_parts(0, number.get())),
    }
}

fn years(number: Whole) -> Option<Span>
    ensures { result ≡ years_of number }
{
    match span_times(Span::from_parts(12, 0), number.get()) {
        Ok(span) => Some(span),
        Err(_) => None,
    }
}
