// The numbers of operators and roundings in code, and the types of what operators give.
ghost use Rattle.std.specs.Prelude.{◌≡◌};
ghost use Rattle.cat_code.specs.OperationNumbers.{number_before as of_unary, number_between as of_binary};
ghost use Rattle.cat_code.specs.OperationNumbers.{rounding_number as of_rounding};
ghost use Rattle.cat_scope.specs.Signatures.{given_by, signatures_of, summed_type};
ghost use Rattle.cat_scope.specs.Literals.{literal_type};
ghost use Rattle.cat_lower.specs.Types.{result_of};

use cat_date::Rounding;
use cat_scope::{BinaryOp, Literal, SumKind, UnaryOp};
use cat_value::Ty;

/// The number of an operator before an operand.
pub fn number_before(op: UnaryOp) -> u32
    ensures { result ≡ of_unary op }
{
    match op {
        UnaryOp::NegateInteger => 24,
        UnaryOp::NegateDecimal => 25,
        UnaryOp::NegateMoney => 26,
        UnaryOp::NegateDuration => 27,
        UnaryOp::Not => 28,
        UnaryOp::IntegerOfDecimal => 36,
        UnaryOp::DecimalOfInteger => 37,
        UnaryOp::DecimalOfMoney => 38,
        UnaryOp::MoneyOfDecimal => 39,
        UnaryOp::MoneyOfInteger => 40,
        UnaryOp::RoundDecimal => 41,
        UnaryOp::RoundMoney => 42,
        UnaryOp::YearOfDate => 43,
        UnaryOp::MonthOfDate => 44,
        UnaryOp::DayOfDate => 45,
    }
}

/// The number of an operator between two operands.
pub fn number_between(op: BinaryOp) -> u32
    ensures { result ≡ of_binary op }
{
    match op {
        BinaryOp::AddIntegers => 1,
        BinaryOp::SubtractIntegers => 2,
        BinaryOp::MultiplyIntegers => 3,
        BinaryOp::DivideIntegers => 4,
        BinaryOp::AddDecimals => 5,
        BinaryOp::SubtractDecimals => 6,
        BinaryOp::MultiplyDecimals => 7,
        BinaryOp::DivideDecimals => 8,
        BinaryOp::AddMoney => 9,
        BinaryOp::SubtractMoney => 10,
        BinaryOp::MultiplyMoneyByDecimal => 11,
        BinaryOp::MultiplyDecimalByMoney => 12,
        BinaryOp::MultiplyMoneyByInteger => 13,
        BinaryOp::MultiplyIntegerByMoney => 14,
        BinaryOp::DivideMoneyByDecimal => 15,
        BinaryOp::DivideMoneyByInteger => 16,
        BinaryOp::DivideMoney => 17,
        BinaryOp::AddDurationToDate => 18,
        BinaryOp::SubtractDurationFromDate => 19,
        BinaryOp::SubtractDates => 20,
        BinaryOp::AddDurations => 21,
        BinaryOp::SubtractDurations => 22,
        BinaryOp::MultiplyDurationByInteger => 23,
        BinaryOp::Xor => 29,
        BinaryOp::Less => 30,
        BinaryOp::AtMost => 31,
        BinaryOp::Greater => 32,
        BinaryOp::AtLeast => 33,
        BinaryOp::Equal => 34,
        BinaryOp::Unequal => 35,
    }
}

/// The number of what becomes of a day that its month lacks.
pub fn rounding_number(rounding: Rounding) -> u32
    ensures { result ≡ of_rounding rounding }
{
    match rounding {
        Rounding::Refuse => 0,
        Rounding::Up => 1,
        Rounding::Down => 2,
    }
}

/// The type of what an operator before an operand gives.
pub fn given(op: UnaryOp) -> Ty
    ensures { result ≡ given_by op }
{
    match op {
        UnaryOp::NegateInteger => Ty::Integer,
        UnaryOp::NegateDecimal => Ty::Decimal,
        UnaryOp::NegateMoney => Ty::Money,
        UnaryOp::NegateDuration => Ty::Duration,
        UnaryOp::Not => Ty::Boolean,
        UnaryOp::IntegerOfDecimal => Ty::Integer,
        UnaryOp::DecimalOfInteger => Ty::Decimal,
        UnaryOp::DecimalOfMoney => Ty::Decimal,
        UnaryOp::MoneyOfDecimal => Ty::Money,
        UnaryOp::MoneyOfInteger => Ty::Money,
        UnaryOp::RoundDecimal => Ty::Decimal,
        UnaryOp::RoundMoney => Ty::Money,
        UnaryOp::YearOfDate => Ty::Integer,
        UnaryOp::MonthOfDate => Ty::Integer,
        UnaryOp::DayOfDate => Ty::Integer,
    }
}

/// The type of what an operator between two operands gives.
pub fn result_type(op: BinaryOp) -> Ty
    ensures { result ≡ result_of (signatures_of op) }
{
    match op {
        BinaryOp::AddIntegers => Ty::Integer,
        BinaryOp::SubtractIntegers => Ty::Integer,
        BinaryOp::MultiplyIntegers => Ty::Integer,
        BinaryOp::DivideIntegers => Ty::Decimal,
        BinaryOp::AddDecimals => Ty::Decimal,
        BinaryOp::SubtractDecimals => Ty::Decimal,
        BinaryOp::MultiplyDecimals => Ty::Decimal,
        BinaryOp::DivideDecimals => Ty::Decimal,
        BinaryOp::AddMoney => Ty::Money,
        BinaryOp::SubtractMoney => Ty::Money,
        BinaryOp::MultiplyMoneyByDecimal => Ty::Money,
        BinaryOp::MultiplyDecimalByMoney => Ty::Money,
        BinaryOp::MultiplyMoneyByInteger => Ty::Money,
        BinaryOp::MultiplyIntegerByMoney => Ty::Money,
        BinaryOp::DivideMoneyByDecimal => Ty::Money,
        BinaryOp::DivideMoneyByInteger => Ty::Money,
        BinaryOp::DivideMoney => Ty::Decimal,
        BinaryOp::AddDurationToDate => Ty::Date,
        BinaryOp::SubtractDurationFromDate => Ty::Date,
        BinaryOp::SubtractDates => Ty::Duration,
        BinaryOp::AddDurations => Ty::Duration,
        BinaryOp::SubtractDurations => Ty::Duration,
        BinaryOp::MultiplyDurationByInteger => Ty::Duration,
        BinaryOp::Xor => Ty::Boolean,
        BinaryOp::Less => Ty::Boolean,
        BinaryOp::AtMost => Ty::Boolean,
        BinaryOp::Greater => Ty::Boolean,
        BinaryOp::AtLeast => Ty::Boolean,
        BinaryOp::Equal => Ty::Boolean,
        BinaryOp::Unequal => Ty::Boolean,
    }
}

/// The type of what is added up.
pub fn summed(kind: SumKind) -> Ty
    ensures { result ≡ summed_type kind }
{
    match kind {
        SumKind::Integers => Ty::Integer,
        SumKind::Decimals => Ty::Decimal,
        SumKind::Money => Ty::Money,
        SumKind::Durations => Ty::Duration,
    }
}

/// The type of a literal.
pub fn literal_ty(literal: Literal) -> Ty
    ensures { result ≡ literal_type literal }
{
    match literal {
        Literal::Boolean(_) => Ty::Boolean,
        Literal::Integer(_) => Ty::Integer,
        Literal::Decimal(_) => Ty::Decimal,
        Literal::Money(_) => Ty::Money,
        Literal::Date(_) => Ty::Date,
        Literal::Duration(_) => Ty::Duration,
    }
}
