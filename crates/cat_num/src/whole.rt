//! Whole numbers.

ghost use Rattle.std.specs.Prelude.{◌≡◌, ◌≢◌, ◌↔◌, pos, neg_ℤ, IsSome, IfSome, Err};
ghost use Rattle.std.specs.Ordering.{int_cmp};
ghost use Rattle.cat_num.specs.Whole.{Fits, whole_of, whole_sum, whole_difference, whole_product};
ghost use Rattle.cat_num.specs.Frac.{frac_of};

use crate::fault::NumFault;
use crate::frac::Frac;
use std::cmp::Ordering;
use std::marker::Model;

/// A whole number from -M to M, where M is 2^63 - 1: an `i64` other than the least.
#[derive(Clone, Copy, PartialEq, Eq, PartialOrd, Ord, Hash, Debug)]
pub struct Whole {
    value: i64,
}

impl Model for Whole {
    ghost use Rattle.std.specs.Prelude.{ℤ};
    ghost use Rattle.cat_num.specs.Whole.{Fits};

    ghost Value = { ℤ };

    ghost view = { λ w. w.value };

    ghost invariant = { λ w. Fits w.value };

    ghost inverse = { λ n. record { value = n } };
}

/// The number, where it lies between -M and M.
pub(crate) fn fitted(n: i128) -> Result<Whole, NumFault>
    ensures { result ≡ whole_of n }
{
    if n.unsigned_abs() > i64::MAX as u128 {
        Err(NumFault::Overflow)
    } else {
        Ok(Whole { value: n as i64 })
    }
}

impl Whole {
    /// The number, which is known to fit.
    pub(crate) fn within(n: i128) -> Whole
        requires { Fits n }
        ensures { result ≡ n }
    {
        Whole { value: n as i64 }
    }

    /// The number, or None for the least `i64`.
    pub fn new(n: i64) -> Option<Whole>
        ensures some { IsSome result ↔ Fits n }
        ensures value { IfSome result (λ w. w ≡ n) }
    {
        if n == i64::MIN {
            None
        } else {
            Some(Whole { value: n })
        }
    }

    /// The number, from -M to M.
    pub fn get(self) -> i64
        ensures value { result ≡ self }
        ensures fits { Fits self }
    {
        self.value
    }

    /// The sum, or Overflow.
    pub fn add(self, other: Whole) -> Result<Whole, NumFault>
        ensures { result ≡ whole_sum self other }
    {
        fitted(self.value as i128 + other.value as i128)
    }

    /// The difference, or Overflow.
    pub fn sub(self, other: Whole) -> Result<Whole, NumFault>
        ensures { result ≡ whole_difference self other }
    {
        fitted(self.value as i128 - other.value as i128)
    }

    /// The product, or Overflow.
    pub fn mul(self, other: Whole) -> Result<Whole, NumFault>
        ensures { result ≡ whole_product self other }
    {
        fitted(self.value as i128 * other.value as i128)
    }

    /// The number with the other sign, which always fits.
    pub fn neg(self) -> Whole
        ensures { result ≡ neg_ℤ self }
    {
        Whole { value: -self.value }
    }

    /// The order of the numbers.
    pub fn cmp(self, other: Whole) -> Ordering
        ensures { result ≡ int_cmp self other }
    {
        self.value.cmp(&other.value)
    }

    /// The exact quotient, or DivisionByZero.
    pub fn over(self, other: Whole) -> Result<Frac, NumFault>
        ensures value { result ≡ frac_of self other }
        ensures fits { result ≢ Err NumFault.Overflow }
    {
        Frac::new(self.value as i128, other.value as i128)
    }
}
