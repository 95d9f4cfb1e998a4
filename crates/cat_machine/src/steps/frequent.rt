// What the operators give that stand most often, between two numbers whose kinds are known. All of it is inlined into
// the loop over the steps, and none is written to memory.
ghost use Rattle.std.specs.Prelude.{◌≡◌, IfSome};
ghost use Rattle.cat_scalar.specs.declared.scalar.Scalar.TheVariants as scalar;
ghost use Rattle.cat_machine.specs.inside.Frequent.{Gives, GivesBy, exact_in};
ghost use Rattle.cat_machine.specs.inside.Putting.{scalar_at};

use cat_num::{Frac, Money, NumFault, Whole, money_times};
use cat_pool::PoolNode;
use cat_scalar::Scalar;
use cat_scope::BinaryOp;
use std::cmp::Ordering;

#[inline(always)]
fn whole_in(exact: Result<Whole, NumFault>) -> Option<Scalar>
    ensures { result ≡ exact_in scalar.Integer exact }
{
    match exact {
        Ok(whole) => Some(Scalar::Integer(whole)),
        Err(_) => None,
    }
}

#[inline(always)]
fn money_in(exact: Result<Money, NumFault>) -> Option<Scalar>
    ensures { result ≡ exact_in scalar.Money exact }
{
    match exact {
        Ok(money) => Some(Scalar::Money(money)),
        Err(_) => None,
    }
}

#[inline(always)]
fn frac_in(exact: Result<Frac, NumFault>) -> Option<Scalar>
    ensures { result ≡ exact_in scalar.Decimal exact }
{
    match exact {
        Ok(frac) => Some(Scalar::Decimal(frac)),
        Err(_) => None,
    }
}

/// A comparison of two values that stand so to each other.
#[inline(always)]
fn by_order(op: BinaryOp, order: Ordering) -> Option<Scalar>
    ensures { IfSome result (GivesBy op order) }
{
    match op {
        BinaryOp::Less => Some(Scalar::Boolean(order == Ordering::Less)),
        BinaryOp::AtMost => Some(Scalar::Boolean(order != Ordering::Greater)),
        BinaryOp::Greater => Some(Scalar::Boolean(order == Ordering::Greater)),
        BinaryOp::AtLeast => Some(Scalar::Boolean(order != Ordering::Less)),
        _ => None,
    }
}

#[inline(always)]
fn of_wholes(op: BinaryOp, left: Whole, right: Whole) -> Option<Scalar>
    ensures { IfSome result (Gives op (scalar.Integer left) (scalar.Integer right)) }
{
    match op {
        BinaryOp::AddIntegers => whole_in(left.add(right)),
        BinaryOp::SubtractIntegers => whole_in(left.sub(right)),
        BinaryOp::MultiplyIntegers => whole_in(left.mul(right)),
        _ => by_order(op, left.cmp(right)),
    }
}

#[inline(always)]
fn of_amounts(op: BinaryOp, left: Money, right: Money) -> Option<Scalar>
    ensures { IfSome result (Gives op (scalar.Money left) (scalar.Money right)) }
{
    match op {
        BinaryOp::AddMoney => money_in(left.add(right)),
        BinaryOp::SubtractMoney => money_in(left.sub(right)),
        _ => by_order(op, left.cmp(right)),
    }
}

#[inline(always)]
fn of_decimals(op: BinaryOp, left: Frac, right: Frac) -> Option<Scalar>
    ensures { IfSome result (Gives op (scalar.Decimal left) (scalar.Decimal right)) }
{
    match op {
        BinaryOp::AddDecimals => frac_in(left.add(right)),
        BinaryOp::SubtractDecimals => frac_in(left.sub(right)),
        BinaryOp::MultiplyDecimals => frac_in(left.mul(right)),
        BinaryOp::DivideDecimals => frac_in(left.div(right)),
        _ => None,
    }
}

/// A part of an amount.
#[inline(always)]
fn of_amount_and_decimal(op: BinaryOp, left: Money, right: Frac) -> Option<Scalar>
    ensures { IfSome result (Gives op (scalar.Money left) (scalar.Decimal right)) }
{
    match op {
        BinaryOp::MultiplyMoneyByDecimal => money_in(money_times(left, right)),
        _ => None,
    }
}

/// What an operator gives between two nodes, where it is one of these and gives no fault.
#[inline(always)]
pub fn frequent(op: BinaryOp, left: &PoolNode, right: &PoolNode) -> Option<Scalar>
    ensures { IfSome result (Gives op (scalar_at left.now) (scalar_at right.now)) }
{
    match (left, right) {
        (PoolNode::Integer(whole), PoolNode::Integer(other)) => of_wholes(op, *whole, *other),
        (PoolNode::Money(money), PoolNode::Money(more)) => of_amounts(op, *money, *more),
        (PoolNode::Decimal(frac), PoolNode::Decimal(other)) => of_decimals(op, *frac, *other),
        (PoolNode::Money(money), PoolNode::Decimal(frac)) => {
            of_amount_and_decimal(op, *money, *frac)
        }
        _ => None,
    }
}
