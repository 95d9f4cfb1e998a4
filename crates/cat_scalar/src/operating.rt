// Operators, by the kinds of their operands.
ghost use Rattle.std.specs.Prelude.{◌≡◌};
ghost use Rattle.cat_pos.specs.declared.pos.Pos.{Pos as At};
ghost use Rattle.cat_scope.specs.Operators.{convert, operate};
ghost use Rattle.cat_value.specs.declared.value.Value.{Value as Valued};
ghost use Rattle.cat_scalar.specs.Scalars.{as_reply, scalar_of};

use crate::comparing::{compared, equal};
use crate::faults::{day_or, frac_or, money_or, span_or, whole_or};
use crate::numbers::{
    day_in_month, in_cents, month_of, over, over_one, times, times_of, unit, units, year_of,
};
use crate::{NoResult, Scalar};
use cat_date::{Rounding, add_span, days_between, span_add, span_neg, span_sub, span_times};
use cat_num::{money_over, money_times, round_half_away, round_units, truncate};
use cat_scope::{BinaryOp, UnaryOp};
use std::cmp::Ordering;

/// What stands before one operand.
#[tactic(auto, using(crate::proofs::Projecting::projections))]
pub fn convert(op: UnaryOp, operand: Scalar) -> Result<Scalar, NoResult>
    ensures { (p : At) (v : Valued) → scalar_of v ≡ operand → as_reply p result ≡ convert op p v }
{
    match op {
        UnaryOp::NegateInteger => Ok(Scalar::Integer(operand.integer()?.neg())),
        UnaryOp::NegateDecimal => Ok(Scalar::Decimal(operand.decimal()?.neg())),
        UnaryOp::NegateMoney => Ok(Scalar::Money(operand.money()?.neg())),
        UnaryOp::NegateDuration => Ok(Scalar::Duration(span_neg(operand.duration()?))),
        UnaryOp::Not => Ok(Scalar::Boolean(!operand.truth()?)),
        UnaryOp::IntegerOfDecimal => Ok(Scalar::Integer(truncate(operand.decimal()?))),
        UnaryOp::DecimalOfInteger => Ok(Scalar::Decimal(over_one(operand.integer()?))),
        UnaryOp::DecimalOfMoney => Ok(Scalar::Decimal(units(operand.money()?))),
        UnaryOp::MoneyOfDecimal => money_or(money_times(unit(), operand.decimal()?)),
        UnaryOp::MoneyOfInteger => money_or(in_cents(operand.integer()?)),
        UnaryOp::RoundDecimal => {
            let whole = round_half_away(operand.decimal()?);
            Ok(Scalar::Decimal(over_one(whole)))
        }
        UnaryOp::RoundMoney => Ok(Scalar::Money(round_units(operand.money()?))),
        UnaryOp::YearOfDate => Ok(Scalar::Integer(year_of(operand.date()?))),
        UnaryOp::MonthOfDate => Ok(Scalar::Integer(month_of(operand.date()?))),
        UnaryOp::DayOfDate => Ok(Scalar::Integer(day_in_month(operand.date()?))),
    }
}

/// What stands between two operands; `rounding` is what becomes of a day that its month lacks.
#[inline(always)]
#[tactic(auto, using(crate::proofs::Projecting::projections))]
pub fn operate(
    rounding: Rounding,
    op: BinaryOp,
    left: Scalar,
    right: Scalar,
) -> Result<Scalar, NoResult>
    ensures { (p : At) (v w : Valued) → scalar_of v ≡ left → scalar_of w ≡ right
        → as_reply p result ≡ operate rounding op p v w }
{
    match op {
        BinaryOp::AddIntegers => whole_or(left.integer()?.add(right.integer()?)),
        BinaryOp::SubtractIntegers => whole_or(left.integer()?.sub(right.integer()?)),
        BinaryOp::MultiplyIntegers => whole_or(left.integer()?.mul(right.integer()?)),
        BinaryOp::DivideIntegers => frac_or(left.integer()?.over(right.integer()?)),
        BinaryOp::AddDecimals => frac_or(left.decimal()?.add(right.decimal()?)),
        BinaryOp::SubtractDecimals => frac_or(left.decimal()?.sub(right.decimal()?)),
        BinaryOp::MultiplyDecimals => frac_or(left.decimal()?.mul(right.decimal()?)),
        BinaryOp::DivideDecimals => frac_or(left.decimal()?.div(right.decimal()?)),
        BinaryOp::AddMoney => money_or(left.money()?.add(right.money()?)),
        BinaryOp::SubtractMoney => money_or(left.money()?.sub(right.money()?)),
        BinaryOp::MultiplyMoneyByDecimal => money_or(money_times(left.money()?, right.decimal()?)),
        BinaryOp::MultiplyDecimalByMoney => {
            let frac = left.decimal()?;
            money_or(money_times(right.money()?, frac))
        }
        BinaryOp::MultiplyMoneyByInteger => money_or(times(left.money()?, right.integer()?)),
        BinaryOp::MultiplyIntegerByMoney => money_or(times_of(left.integer()?, right.money()?)),
        BinaryOp::DivideMoneyByDecimal => money_or(money_over(left.money()?, right.decimal()?)),
        BinaryOp::DivideMoneyByInteger => money_or(over(left.money()?, right.integer()?)),
        BinaryOp::DivideMoney => frac_or(left.money()?.over(right.money()?)),
        BinaryOp::AddDurationToDate => day_or(add_span(left.date()?, right.duration()?, rounding)),
        BinaryOp::SubtractDurationFromDate => {
            let day = left.date()?;
            day_or(add_span(day, span_neg(right.duration()?), rounding))
        }
        BinaryOp::SubtractDates => Ok(Scalar::Duration(days_between(left.date()?, right.date()?))),
        BinaryOp::AddDurations => span_or(span_add(left.duration()?, right.duration()?)),
        BinaryOp::SubtractDurations => span_or(span_sub(left.duration()?, right.duration()?)),
        BinaryOp::MultiplyDurationByInteger => {
            span_or(span_times(left.duration()?, right.integer()?.get()))
        }
        BinaryOp::Xor => Ok(Scalar::Boolean(left.truth()? != right.truth()?)),
        BinaryOp::Less => Ok(Scalar::Boolean(compared(left, right)? == Ordering::Less)),
        BinaryOp::AtMost => Ok(Scalar::Boolean(compared(left, right)? != Ordering::Greater)),
        BinaryOp::Greater => Ok(Scalar::Boolean(compared(left, right)? == Ordering::Greater)),
        BinaryOp::AtLeast => Ok(Scalar::Boolean(compared(left, right)? != Ordering::Less)),
        BinaryOp::Equal => Ok(Scalar::Boolean(equal(left, right)?)),
        BinaryOp::Unequal => Ok(Scalar::Boolean(!equal(left, right)?)),
    }
}
