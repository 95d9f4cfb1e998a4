//! Rounding fractions to whole numbers.

ghost use Rattle.std.specs.Prelude.{◌≡◌, ◌<◌, ◌≤◌, ◌^◌, unsigned_abs};
ghost use Rattle.cat_num.specs.Rounding.{rounded, truncated, rounded_ratio};

use crate::fault::NumFault;
use crate::frac::Frac;
use crate::whole::{Whole, fitted};

/// The whole number nearest to `num / den`, a half away from zero.
pub(crate) fn nearest(num: i128, den: u128) -> i128
    requires num { unsigned_abs num < 2 ^ 126 }
    requires positive { 0 < den }
    requires den { den < 2 ^ 64 }
    ensures { result ≡ rounded num den }
{
    let size = (2 * num.unsigned_abs() + den) / (2 * den);
    if num < 0 {
        -(size as i128)
    } else {
        size as i128
    }
}

/// The whole number nearest to `num / den`, where it fits.
#[tactic(auto, using(crate::proofs::Rounds::by_sign))]
pub(crate) fn nearest_ratio(num: i128, den: i64) -> Result<Whole, NumFault>
    requires num { unsigned_abs num < 2 ^ 126 }
    ensures { result ≡ rounded_ratio num den }
{
    if den == 0 {
        return Err(NumFault::DivisionByZero);
    }
    let size = den.unsigned_abs() as u128;
    if den < 0 {
        fitted(nearest(-num, size))
    } else {
        fitted(nearest(num, size))
    }
}

/// The whole number nearest to the fraction, a half away from zero.
pub fn round_half_away(f: Frac) -> Whole
    ensures { result ≡ rounded f.num f.den }
{
    Whole::within(nearest(f.num() as i128, f.den() as u128))
}

/// The fraction without what stands behind the point.
pub fn truncate(f: Frac) -> Whole
    ensures { result ≡ truncated f.num f.den }
{
    Whole::within(f.num() as i128 / f.den() as i128)
}
