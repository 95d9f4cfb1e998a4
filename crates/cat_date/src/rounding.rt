//! What becomes of a day that its month lacks.

#[derive(Clone, Copy, PartialEq, Eq, Debug)]
pub enum Rounding {
    /// The first day of the next month.
    Up,
    /// The last day of the month.
    Down,
    /// No day.
    Refuse,
}
