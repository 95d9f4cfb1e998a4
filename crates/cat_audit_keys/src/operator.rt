// The numbers of operators.
ghost use Rattle.std.specs.Prelude.{◌≡◌};
ghost use Rattle.cat_scope.specs.OperatorNumbers.{unary_number, binary_number, sum_number};

use cat_scope::{BinaryOp, SumKind, UnaryOp};

/// The number of an operator before one operand.
pub fn unary_number(of: UnaryOp) -> u64
    ensures { result ≡ unary_number of }
{
    match of {
        UnaryOp::NegateInteger => 0,
        UnaryOp::NegateDecimal => 1,
        UnaryOp::NegateMoney => 2,
        UnaryOp::NegateDuration => 3,
        UnaryOp::Not => 4,
        UnaryOp::IntegerOfDecimal => 5,
        UnaryOp::DecimalOfInteger => 6,
        UnaryOp::DecimalOfMoney => 7,
        UnaryOp::MoneyOfDecimal => 8,
        UnaryOp::MoneyOfInteger => 9,
        UnaryOp::RoundDecimal => 10,
        UnaryOp::RoundMoney => 11,
        UnaryOp::YearOfDate => 12,
        UnaryOp::MonthOfDate => 13,
        UnaryOp::DayOfDate => 14,
    }
}

/// The number of an operator between two operands.
pub fn binary_number(of: BinaryOp) -> u64
    ensures { result ≡ binary_number of }
{
    match of {
        BinaryOp::AddIntegers => 0,
        BinaryOp::SubtractIntegers => 1,
        BinaryOp::MultiplyIntegers => 2,
        BinaryOp::DivideIntegers => 3,
        BinaryOp::AddDecimals => 4,
        BinaryOp::SubtractDecimals => 5,
        BinaryOp::MultiplyDecimals => 6,
        BinaryOp::DivideDecimals => 7,
        BinaryOp::AddMoney => 8,
        BinaryOp::SubtractMoney => 9,
        BinaryOp::MultiplyMoneyByDecimal => 10,
        BinaryOp::MultiplyDecimalByMoney => 11,
        BinaryOp::MultiplyMoneyByInteger => 12,
        BinaryOp::MultiplyIntegerByMoney => 13,
        BinaryOp::DivideMoneyByDecimal => 14,
        BinaryOp::DivideMoneyByInteger => 15,
        BinaryOp::DivideMoney => 16,
        BinaryOp::AddDurationToDate => 17,
        BinaryOp::SubtractDurationFromDate => 18,
        BinaryOp::SubtractDates => 19,
        BinaryOp::AddDurations => 20,
        BinaryOp::SubtractDurations => 21,
        BinaryOp::MultiplyDurationByInteger => 22,
        BinaryOp::Xor => 23,
        BinaryOp::Less => 24,
        BinaryOp::AtMost => 25,
        BinaryOp::Greater => 26,
        BinaryOp::AtLeast => 27,
        BinaryOp::Equal => 28,
        BinaryOp::Unequal => 29,
    }
}

/// The number of what is summed.
pub fn sum_number(of: SumKind) -> u64
    ensures { result ≡ sum_number of }
{
    match of {
        SumKind::Integers => 0,
        SumKind::Decimals => 1,
        SumKind::Money => 2,
        SumKind::Durations => 3,
    }
}
