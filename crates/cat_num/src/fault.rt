//! Why an operation on numbers has no result.

/// Why an operation on numbers has no result.
#[derive(Clone, Copy, PartialEq, Eq, PartialOrd, Ord, Hash, Debug)]
pub enum NumFault {
    /// The exact result does not fit.
    Overflow = 1,
    /// The divisor is zero.
    DivisionByZero = 2,
}
