// What values a term may have.

/// The kind of a term's values. Cases are those of an enumeration, of which the number is given.
#[derive(Clone, Copy, PartialEq, Eq, Debug)]
pub enum Dim {
    Whole,
    Money,
    Day,
    Decimal,
    Truth,
    Cases(u32),
}
