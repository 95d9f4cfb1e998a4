// The rows of the operators, by the types of their operands.
ghost use Rattle.std.specs.Prelude.{◌≡◌, ◌&&◌};
ghost use Rattle.cat_tree.specs.declared.expression.Operator.TheVariants as operator;
ghost use Rattle.cat_names.specs.Rows as words;

use crate::types::flat_of;
use cat_names::Flat;
use cat_scope::{BinaryOp, SumKind, UnaryOp};
use cat_tree::{Operator, Prefix};
use cat_value::Ty;

#[tactic(auto, using(crate::proofs::Views::types))]
fn same_flat(left: Flat, right: Flat) -> bool
    ensures { result ≡ words.same_flat left right }
{
    match left {
        Flat::Boolean => matches!(right, Flat::Boolean),
        Flat::Integer => matches!(right, Flat::Integer),
        Flat::Decimal => matches!(right, Flat::Decimal),
        Flat::Money => matches!(right, Flat::Money),
        Flat::Date => matches!(right, Flat::Date),
        Flat::Duration => matches!(right, Flat::Duration),
    }
}

fn is_ordered(flat: Flat) -> bool
    ensures { result ≡ words.is_ordered flat }
{
    !matches!(flat, Flat::Boolean)
}

fn comparing(row: BinaryOp, comparable: bool) -> Option<(BinaryOp, Flat)>
    ensures { result ≡ words.comparing row comparable }
{
    if comparable {
        Some((row, Flat::Boolean))
    } else {
        None
    }
}

fn ordering(row: BinaryOp, left: Flat, right: Flat) -> Option<(BinaryOp, Flat)>
    ensures { result ≡ words.comparing row (words.is_ordered left && words.same_flat left right) }
{
    comparing(row, is_ordered(left) && same_flat(left, right))
}

fn added(left: Flat, right: Flat) -> Option<(BinaryOp, Flat)>
    ensures { result ≡ words.chosen operator.Plus left right }
{
    match (left, right) {
        (Flat::Integer, Flat::Integer) => Some((BinaryOp::AddIntegers, Flat::Integer)),
        (Flat::Decimal, Flat::Decimal) => Some((BinaryOp::AddDecimals, Flat::Decimal)),
        (Flat::Money, Flat::Money) => Some((BinaryOp::AddMoney, Flat::Money)),
        (Flat::Date, Flat::Duration) => Some((BinaryOp::AddDurationToDate, Flat::Date)),
        (Flat::Duration, Flat::Duration) => Some((BinaryOp::AddDurations, Flat::Duration)),
        _ => None,
    }
}

fn subtracted(left: Flat, right: Flat) -> Option<(BinaryOp, Flat)>
    ensures { result ≡ words.chosen operator.Minus left right }
{
    match (left, right) {
        (Flat::Integer, Flat::Integer) => Some((BinaryOp::SubtractIntegers, Flat::Integer)),
        (Flat::Decimal, Flat::Decimal) => Some((BinaryOp::SubtractDecimals, Flat::Decimal)),
        (Flat::Money, Flat::Money) => Some((BinaryOp::SubtractMoney, Flat::Money)),
        (Flat::Date, Flat::Duration) => Some((BinaryOp::SubtractDurationFromDate, Flat::Date)),
        (Flat::Date, Flat::Date) => Some((BinaryOp::SubtractDates, Flat::Duration)),
        (Flat::Duration, Flat::Duration) => Some((BinaryOp::SubtractDurations, Flat::Duration)),
        _ => None,
    }
}

fn multiplied(left: Flat, right: Flat) -> Option<(BinaryOp, Flat)>
    ensures { result ≡ words.chosen operator.Times left right }
{
    match (left, right) {
        (Flat::Integer, Flat::Integer) => Some((BinaryOp::MultiplyIntegers, Flat::Integer)),
        (Flat::Decimal, Flat::Decimal) => Some((BinaryOp::MultiplyDecimals, Flat::Decimal)),
        (Flat::Money, Flat::Decimal) => Some((BinaryOp::MultiplyMoneyByDecimal, Flat::Money)),
        (Flat::Decimal, Flat::Money) => Some((BinaryOp::MultiplyDecimalByMoney, Flat::Money)),
        (Flat::Money, Flat::Integer) => Some((BinaryOp::MultiplyMoneyByInteger, Flat::Money)),
        (Flat::Integer, Flat::Money) => Some((BinaryOp::MultiplyIntegerByMoney, Flat::Money)),
        (Flat::Duration, Flat::Integer) => {
            Some((BinaryOp::MultiplyDurationByInteger, Flat::Duration))
        }
        _ => None,
    }
}

fn divided(left: Flat, right: Flat) -> Option<(BinaryOp, Flat)>
    ensures { result ≡ words.chosen operator.Divide left right }
{
    match (left, right) {
        (Flat::Integer, Flat::Integer) => Some((BinaryOp::DivideIntegers, Flat::Decimal)),
        (Flat::Decimal, Flat::Decimal) => Some((BinaryOp::DivideDecimals, Flat::Decimal)),
        (Flat::Money, Flat::Decimal) => Some((BinaryOp::DivideMoneyByDecimal, Flat::Money)),
        (Flat::Money, Flat::Integer) => Some((BinaryOp::DivideMoneyByInteger, Flat::Money)),
        (Flat::Money, Flat::Money) => Some((BinaryOp::DivideMoney, Flat::Decimal)),
        _ => None,
    }
}

fn excluded(left: Flat, right: Flat) -> Option<(BinaryOp, Flat)>
    ensures { result ≡ words.chosen operator.Xor left right }
{
    match (left, right) {
        (Flat::Boolean, Flat::Boolean) => Some((BinaryOp::Xor, Flat::Boolean)),
        _ => None,
    }
}

/// The row of an operator for operands of these types, and the type that it gives.
fn chosen(operator: Operator, left: Flat, right: Flat) -> Option<(BinaryOp, Flat)>
    ensures { result ≡ words.chosen operator left right }
{
    match operator {
        Operator::Plus => added(left, right),
        Operator::Minus => subtracted(left, right),
        Operator::Times => multiplied(left, right),
        Operator::Divide => divided(left, right),
        Operator::Xor => excluded(left, right),
        Operator::Less => ordering(BinaryOp::Less, left, right),
        Operator::LessEqual => ordering(BinaryOp::AtMost, left, right),
        Operator::Greater => ordering(BinaryOp::Greater, left, right),
        Operator::GreaterEqual => ordering(BinaryOp::AtLeast, left, right),
        Operator::Equal => comparing(BinaryOp::Equal, same_flat(left, right)),
        Operator::NotEqual => comparing(BinaryOp::Unequal, same_flat(left, right)),
        Operator::Or | Operator::And | Operator::Contains => None,
    }
}

/// The row of an operator between two operands of any types, and the type that it gives.
pub fn operator_for(operator: Operator, left: &Ty, right: &Ty) -> Option<(BinaryOp, Flat)>
    ensures { result ≡ words.operator_for operator left.now right.now }
{
    chosen(operator, flat_of(left)?, flat_of(right)?)
}

fn converted(prefix: Prefix, operand: Flat) -> Option<(UnaryOp, Flat)>
    ensures { result ≡ words.converted prefix operand }
{
    match (prefix, operand) {
        (Prefix::Not, Flat::Boolean) => Some((UnaryOp::Not, Flat::Boolean)),
        (Prefix::Negate, Flat::Integer) => Some((UnaryOp::NegateInteger, Flat::Integer)),
        (Prefix::Negate, Flat::Decimal) => Some((UnaryOp::NegateDecimal, Flat::Decimal)),
        (Prefix::Negate, Flat::Money) => Some((UnaryOp::NegateMoney, Flat::Money)),
        (Prefix::Negate, Flat::Duration) => Some((UnaryOp::NegateDuration, Flat::Duration)),
        (Prefix::IntegerOf, Flat::Decimal) => Some((UnaryOp::IntegerOfDecimal, Flat::Integer)),
        (Prefix::DecimalOf, Flat::Integer) => Some((UnaryOp::DecimalOfInteger, Flat::Decimal)),
        (Prefix::DecimalOf, Flat::Money) => Some((UnaryOp::DecimalOfMoney, Flat::Decimal)),
        (Prefix::MoneyOf, Flat::Decimal) => Some((UnaryOp::MoneyOfDecimal, Flat::Money)),
        (Prefix::MoneyOf, Flat::Integer) => Some((UnaryOp::MoneyOfInteger, Flat::Money)),
        (Prefix::RoundOf, Flat::Decimal) => Some((UnaryOp::RoundDecimal, Flat::Decimal)),
        (Prefix::RoundOf, Flat::Money) => Some((UnaryOp::RoundMoney, Flat::Money)),
        (Prefix::GetYear, Flat::Date) => Some((UnaryOp::YearOfDate, Flat::Integer)),
        (Prefix::GetMonth, Flat::Date) => Some((UnaryOp::MonthOfDate, Flat::Integer)),
        (Prefix::GetDay, Flat::Date) => Some((UnaryOp::DayOfDate, Flat::Integer)),
        _ => None,
    }
}

/// The row of a prefix before an operand of any type, and the type that it gives.
pub fn prefix_for(prefix: Prefix, operand: &Ty) -> Option<(UnaryOp, Flat)>
    ensures { result ≡ words.prefix_for prefix operand.now }
{
    converted(prefix, flat_of(operand)?)
}

fn sum_kind(flat: Flat) -> Option<SumKind>
    ensures { result ≡ words.sum_kind flat }
{
    match flat {
        Flat::Integer => Some(SumKind::Integers),
        Flat::Decimal => Some(SumKind::Decimals),
        Flat::Money => Some(SumKind::Money),
        Flat::Duration => Some(SumKind::Durations),
        Flat::Boolean | Flat::Date => None,
    }
}

/// What a sum of any type adds up.
pub fn sum_for(ty: &Ty) -> Option<SumKind>
    ensures { result ≡ words.sum_for ty.now }
{
    sum_kind(flat_of(ty)?)
}
