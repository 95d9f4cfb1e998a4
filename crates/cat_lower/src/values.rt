// Values that code has as constants.
ghost use Rattle.std.specs.Prelude.{◌≡◌};
ghost use Rattle.cat_scope.specs.Composed.{literal_value as of_literal};
ghost use Rattle.cat_scope.specs.Lists.{adding as of_kind, zero_of};

use cat_date::Span;
use cat_num::{DecimalLiteral, Money, Whole, frac_of_decimal};
use cat_scope::{BinaryOp, Literal, SumKind};
use cat_value::Value;

/// The value of a literal.
pub fn literal_value(literal: Literal) -> Value
    ensures { result ≡ of_literal literal }
{
    match literal {
        Literal::Boolean(truth) => Value::Boolean(truth),
        Literal::Integer(whole) => Value::Integer(whole),
        Literal::Decimal(decimal) => Value::Decimal(frac_of_decimal(decimal)),
        Literal::Money(money) => Value::Money(money),
        Literal::Date(day) => Value::Date(day),
        Literal::Duration(span) => Value::Duration(span),
    }
}

/// The zero of a kind.
pub fn zero(kind: SumKind) -> Value
    ensures { result ≡ zero_of kind }
{
    match kind {
        SumKind::Integers => Value::Integer(Whole::new(0).unwrap()),
        SumKind::Decimals => Value::Decimal(frac_of_decimal(DecimalLiteral::new(0, 0).unwrap())),
        SumKind::Money => Value::Money(Money::new(0).unwrap()),
        SumKind::Durations => Value::Duration(Span::from_parts(0, 0)),
    }
}

/// The operator that adds two of a kind.
pub fn adding(kind: SumKind) -> BinaryOp
    ensures { result ≡ of_kind kind }
{
    match kind {
        SumKind::Integers => BinaryOp::AddIntegers,
        SumKind::Decimals => BinaryOp::AddDecimals,
        SumKind::Money => BinaryOp::AddMoney,
        SumKind::Durations => BinaryOp::AddDurations,
    }
}
