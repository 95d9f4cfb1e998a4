// Values of dimensions.
use cat_date::Day;
use cat_num::{Frac, Money, Whole};

/// A value of a dimension, as cuts see it: of a case its number, and not its content.
#[derive(Clone, Copy, PartialEq, Eq, Debug)]
pub enum Point {
    Whole(Whole),
    Money(Money),
    Day(Day),
    Decimal(Frac),
    Truth(bool),
    Case(u32),
}
