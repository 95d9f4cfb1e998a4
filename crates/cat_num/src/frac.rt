//! Fractions in lowest terms.

ghost use Rattle.std.specs.Prelude.{◌≡◌, ◌≢◌, ◌↔◌, ◌*◌, ◌<◌, ◌≤◌, ◌^◌, pos, ◌*ℤ◌, unsigned_abs, IsTrue, Err};
ghost use Rattle.cat_num.specs.Whole.{largest, Fits};
ghost use Rattle.cat_num.specs.Frac.{IsReduced, is_reduced, gcd, is_negative, signed, lowest, ratio, frac_of, frac_sum};
ghost use Rattle.cat_num.specs.Frac.{frac_difference, frac_product, frac_quotient, frac_negation, frac_order};
ghost use Rattle.cat_num.specs.Laws.{AreEqual};
ghost use Rattle.cat_num.specs.Numerals.{numeral_value};

use crate::fault::NumFault;
use crate::literal::DecimalLiteral;
use std::cmp::Ordering;
use std::marker::Model;

const MAX: u128 = i64::MAX as u128;

/// A fraction in lowest terms: its numerator lies between -M and M, its denominator between 1 and M, where M is
/// 2^63 - 1. Equal fractions have equal parts, so `==` is equality of values.
#[derive(Clone, Copy, PartialEq, Eq, Hash, Debug)]
pub struct Frac {
    num: i64,
    den: u64,
}

impl Model for Frac {
    ghost use Rattle.cat_num.specs.Frac.{Fraction, IsReduced};

    ghost Value = { Fraction };

    ghost view = { λ f. record { num = f.num; den = f.den } };

    ghost invariant = { λ f. IsReduced f.num f.den };

    ghost inverse = { λ f. record { num = f.num; den = f.den } };
}

/// Euclid's greatest common divisor.
fn common_divisor(mut a: u128, mut b: u128) -> u128
    ensures { result ≡ gcd a b }
{
    while b != 0 {
        let rest = a % b;
        a = b;
        b = rest;
    }
    a
}

/// The number of a size that fits, with a sign.
fn with_sign(negative: bool, size: u64) -> i64
    requires { size ≤ largest }
    ensures { result ≡ signed negative size }
{
    if negative {
        -(size as i64)
    } else {
        size as i64
    }
}

/// Whether the number lies below zero.
fn is_below_zero(n: i128) -> bool
    ensures { result ≡ is_negative n }
{
    n < 0
}

/// The fraction `num / den` in lowest terms.
fn reduce(num: i128, den: u128) -> Result<Frac, NumFault>
    ensures { result ≡ ratio num den }
{
    if den == 0 {
        return Err(NumFault::DivisionByZero);
    }
    let size = num.unsigned_abs();
    let divisor = common_divisor(size, den);
    let numerator = size / divisor;
    let denominator = den / divisor;
    if numerator > MAX || denominator > MAX {
        return Err(NumFault::Overflow);
    }
    let num = with_sign(is_below_zero(num), numerator as u64);
    Ok(Frac {
        num,
        den: denominator as u64,
    })
}

/// The number times a denominator, of which two fit into 127 bits.
pub(crate) fn scaled(n: i64, den: u64) -> i128
    requires n { Fits n }
    requires den { den ≤ largest }
    ensures value { result ≡ n *ℤ pos den }
    ensures bound { unsigned_abs result < 2 ^ 126 }
{
    n as i128 * den as i128
}

/// The product of two numbers that fit.
pub(crate) fn product(a: i64, b: i64) -> i128
    requires a { Fits a }
    requires b { Fits b }
    ensures value { result ≡ a *ℤ b }
    ensures bound { unsigned_abs result < 2 ^ 126 }
{
    a as i128 * b as i128
}

impl Frac {
    /// The fraction `num / den` in lowest terms, or a fault. Neither number may be the least `i128`.
    pub fn new(num: i128, den: i128) -> Result<Frac, NumFault>
        requires num { unsigned_abs num < 2 ^ 127 }
        requires den { unsigned_abs den < 2 ^ 127 }
        ensures value { result ≡ frac_of num den }
        ensures fits { Fits num → Fits den → result ≢ Err NumFault.Overflow }
    {
        if den < 0 {
            reduce(-num, den.unsigned_abs())
        } else {
            reduce(num, den as u128)
        }
    }

    /// The numerator in lowest terms, which has the sign, from -M to M.
    pub fn num(self) -> i64
        ensures { result ≡ self.num }
    {
        self.num
    }

    /// The denominator in lowest terms, from 1 to M.
    pub fn den(self) -> i64
        ensures value { result ≡ pos self.den }
        ensures reduced { IsReduced self.num self.den }
        ensures tested { IsTrue (is_reduced self) }
    {
        self.den as i64
    }

    /// The sum, or Overflow.
    pub fn add(self, other: Frac) -> Result<Frac, NumFault>
        ensures { result ≡ frac_sum self other }
    {
        let left = scaled(self.num, other.den);
        let right = scaled(other.num, self.den);
        reduce(left + right, self.den as u128 * other.den as u128)
    }

    /// The difference, or Overflow.
    pub fn sub(self, other: Frac) -> Result<Frac, NumFault>
        ensures { result ≡ frac_difference self other }
    {
        let left = scaled(self.num, other.den);
        let right = scaled(other.num, self.den);
        reduce(left - right, self.den as u128 * other.den as u128)
    }

    /// The product, or Overflow.
    pub fn mul(self, other: Frac) -> Result<Frac, NumFault>
        ensures { result ≡ frac_product self other }
    {
        reduce(
            product(self.num, other.num),
            self.den as u128 * other.den as u128,
        )
    }

    /// The quotient, or a fault.
    pub fn div(self, other: Frac) -> Result<Frac, NumFault>
        ensures { result ≡ frac_quotient self other }
    {
        Frac::new(scaled(self.num, other.den), scaled(other.num, self.den))
    }

    /// The fraction with the other sign, which always fits.
    pub fn neg(self) -> Frac
        ensures { result ≡ frac_negation self }
    {
        Frac {
            num: -self.num,
            den: self.den,
        }
    }

    /// The order of the rational numbers.
    pub fn cmp(self, other: Frac) -> Ordering
        ensures { result ≡ frac_order self other }
    {
        let left = scaled(self.num, other.den);
        let right = scaled(other.num, self.den);
        left.cmp(&right)
    }
}

/// Whether the fractions are equal, as `==`: exactly where their cross products agree.
pub fn are_equal(f: Frac, g: Frac) -> bool
    ensures same { IsTrue result ↔ (f ≡ g) }
    ensures cross { IsTrue result ↔ AreEqual f.num f.den g.num g.den }
{
    f.num == g.num && f.den == g.den
}

/// The value of a decimal as it is written.
pub fn frac_of_decimal(literal: DecimalLiteral) -> Frac
    ensures { result ≡ numeral_value literal }
{
    let digits = literal.digits() as u128;
    let den = 10_u64.pow(literal.places()) as u128;
    let divisor = common_divisor(digits, den);
    Frac {
        num: (digits / divisor) as i64,
        den: (den / divisor) as u64,
    }
}
