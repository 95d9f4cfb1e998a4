//! Amounts of money.

ghost use Rattle.std.specs.Prelude.{◌≡◌, ◌≢◌, ◌↔◌, pos, neg_ℤ, IsSome, IfSome, Err};
ghost use Rattle.std.specs.Ordering.{int_cmp};
ghost use Rattle.cat_num.specs.Whole.{Fits, whole_sum, whole_difference};
ghost use Rattle.cat_num.specs.Frac.{frac_of};
ghost use Rattle.cat_num.specs.Rounding.{money_product, money_quotient, whole_units};

use crate::fault::NumFault;
use crate::frac::{Frac, product, scaled};
use crate::round::{nearest, nearest_ratio};
use crate::whole::Whole;
use std::cmp::Ordering;
use std::marker::Model;

/// An amount of money: a number of cents from -M to M, where M is 2^63 - 1.
#[derive(Clone, Copy, PartialEq, Eq, PartialOrd, Ord, Hash, Debug)]
pub struct Money {
    cents: Whole,
}

impl Model for Money {
    ghost use Rattle.std.specs.Prelude.{ℤ};
    ghost use Rattle.cat_num.specs.Whole.{Fits};

    ghost Value = { ℤ };

    ghost view = { λ m. m.cents };

    ghost invariant = { λ m. Fits m.cents };

    ghost inverse = { λ n. record { cents = n } };
}

impl Money {
    /// The amount of so many cents, or None for the least `i64`.
    pub fn new(cents: i64) -> Option<Money>
        ensures some { IsSome result ↔ Fits cents }
        ensures value { IfSome result (λ m. m ≡ cents) }
    {
        match Whole::new(cents) {
            Some(cents) => Some(Money { cents }),
            None => None,
        }
    }

    /// The cents, from -M to M.
    pub fn get(self) -> i64
        ensures value { result ≡ self }
        ensures fits { Fits self }
    {
        self.cents.get()
    }

    /// The sum, or Overflow.
    pub fn add(self, other: Money) -> Result<Money, NumFault>
        ensures { result ≡ whole_sum self other }
    {
        let cents = self.cents.add(other.cents)?;
        Ok(Money { cents })
    }

    /// The difference, or Overflow.
    pub fn sub(self, other: Money) -> Result<Money, NumFault>
        ensures { result ≡ whole_difference self other }
    {
        let cents = self.cents.sub(other.cents)?;
        Ok(Money { cents })
    }

    /// The amount with the other sign, which always fits.
    pub fn neg(self) -> Money
        ensures { result ≡ neg_ℤ self }
    {
        Money {
            cents: self.cents.neg(),
        }
    }

    /// The order of the amounts.
    pub fn cmp(self, other: Money) -> Ordering
        ensures { result ≡ int_cmp self other }
    {
        self.cents.cmp(other.cents)
    }

    /// The exact quotient of two amounts, or DivisionByZero.
    pub fn over(self, other: Money) -> Result<Frac, NumFault>
        ensures value { result ≡ frac_of self other }
        ensures fits { result ≢ Err NumFault.Overflow }
    {
        self.cents.over(other.cents)
    }
}

/// The amount times the fraction, rounded once, to the nearest cent, a half away from zero; or Overflow.
#[tactic(auto, using(crate::proofs::Rounds::by_sign))]
pub fn money_times(m: Money, f: Frac) -> Result<Money, NumFault>
    ensures { result ≡ money_product m f }
{
    let cents = nearest_ratio(product(m.get(), f.num()), f.den())?;
    Ok(Money { cents })
}

/// The amount divided by the fraction, rounded once, to the nearest cent, a half away from zero; or a fault, which is
/// never Overflow where the fraction is a whole number.
pub fn money_over(m: Money, f: Frac) -> Result<Money, NumFault>
    ensures value { result ≡ money_quotient m f }
    ensures whole { f.den ≡ 1 → result ≢ Err NumFault.Overflow }
{
    let cents = nearest_ratio(scaled(m.get(), f.den() as u64), f.num())?;
    Ok(Money { cents })
}

/// The amount to the nearest unit of 100 cents, a half away from zero.
pub fn round_units(m: Money) -> Money
    ensures { result ≡ whole_units m }
{
    let units = nearest(m.get() as i128, 100);
    Money {
        cents: Whole::within(units * 100),
    }
}
