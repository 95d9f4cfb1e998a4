// The operators, one variant for each line of the operator table.

/// What stands before one operand.
#[derive(Clone, Copy, PartialEq, Eq, Debug)]
pub enum UnaryOp {
    NegateInteger,
    NegateDecimal,
    NegateMoney,
    NegateDuration,
    Not,
    /// `integer of` a decimal: toward zero.
    IntegerOfDecimal,
    DecimalOfInteger,
    /// `decimal of` an amount: its cents over 100.
    DecimalOfMoney,
    /// `money of` a decimal: so many units, to the nearest cent, a half away from zero.
    MoneyOfDecimal,
    /// `money of` an integer: so many units.
    MoneyOfInteger,
    /// `round of` a decimal: the nearest whole number, a half away from zero.
    RoundDecimal,
    /// `round of` an amount: the nearest unit, a half away from zero.
    RoundMoney,
    YearOfDate,
    MonthOfDate,
    DayOfDate,
}

/// What stands between two operands that are both evaluated. A comparison takes two operands of one type: an integer,
/// a decimal, an amount, a date or a duration, and for `Equal` and `Unequal` a boolean too.
#[derive(Clone, Copy, PartialEq, Eq, Debug)]
pub enum BinaryOp {
    AddIntegers,
    SubtractIntegers,
    MultiplyIntegers,
    /// The exact quotient of two integers, a decimal.
    DivideIntegers,
    AddDecimals,
    SubtractDecimals,
    MultiplyDecimals,
    DivideDecimals,
    AddMoney,
    SubtractMoney,
    MultiplyMoneyByDecimal,
    MultiplyDecimalByMoney,
    MultiplyMoneyByInteger,
    MultiplyIntegerByMoney,
    DivideMoneyByDecimal,
    DivideMoneyByInteger,
    /// The exact quotient of two amounts, a decimal.
    DivideMoney,
    AddDurationToDate,
    SubtractDurationFromDate,
    SubtractDates,
    AddDurations,
    SubtractDurations,
    MultiplyDurationByInteger,
    Xor,
    Less,
    AtMost,
    Greater,
    AtLeast,
    Equal,
    Unequal,
}

/// What the elements of a list are that are added up.
#[derive(Clone, Copy, PartialEq, Eq, Debug)]
pub enum SumKind {
    Integers,
    Decimals,
    Money,
    Durations,
}
