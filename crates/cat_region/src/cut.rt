// Questions on a value.
use cat_date::Day;
use cat_num::{Frac, Money, Whole};

/// What a value is compared with. The denominator of a decimal divides 10^9, and it lies between -10^9 and 10^9.
#[derive(Clone, Copy, PartialEq, Eq, Debug)]
pub enum Threshold {
    Whole(Whole),
    Money(Money),
    Day(Day),
    Decimal(Frac),
}

/// A question on a value: whether it lies below a threshold, whether it is at most that, whether it is true, whether it
/// is the case of that number.
#[derive(Clone, Copy, PartialEq, Eq, Debug)]
pub enum Cut {
    Below(Threshold),
    AtMost(Threshold),
    IsTrue,
    IsCase(u32),
}
