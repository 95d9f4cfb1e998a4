//! Why an operation on days or durations has no result.

#[derive(Clone, Copy, PartialEq, Eq, Debug)]
pub enum DateFault {
    /// A day or a part of a duration outside its range.
    Overflow = 1,
    /// A day that its month lacks, where nothing says how to round.
    AmbiguousDate = 2,
    /// Two durations of which one has months and one has days.
    Uncomparable = 3,
    /// No date of the calendar in range.
    NotADay = 4,
}
