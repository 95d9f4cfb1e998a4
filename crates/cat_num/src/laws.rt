//! Laws of the numbers: each is the contract of a function.

ghost use Rattle.std.specs.Prelude.{◌≡◌, ℕ, ◌<◌, ℤ, pos, Ok, IsTrue};
ghost use Rattle.std.specs.Int.{IsGcd};
ghost use Rattle.cat_num.specs.Frac.{IsReduced, gcd, frac_of, frac_order};
ghost use Rattle.cat_num.specs.Numerals.{Numeral, is_numeral, numeral_value};
ghost use Rattle.cat_num.specs.Rounding.{rounded};
ghost use Rattle.cat_num.specs.Laws.{IsLowest, IsOrder, IsNearest};
ghost use Rattle.cat_num.specs.Text.{decimal_bytes, money_bytes};
ghost use Rattle.cat_num.specs.Reading.{read_fraction, HasFewestPlaces};

use crate::frac::Frac;
use crate::money::Money;

/// Euclid's steps give the greatest common divisor.
pub fn divisors_are_greatest()
    ensures { (a b : ℕ) → IsGcd a b (gcd a b) }
{}

/// Lowest terms keep the value, and are unique.
pub fn lowest_terms_are_unique()
    ensures { (n : ℤ) (d : ℕ) → 0 < d → IsLowest n d }
{}

/// A decimal that is written within its bounds has a value.
#[tactic(auto, using(crate::proofs::Numerals::value_reduced))]
pub fn decimals_have_values()
    ensures { (n : Numeral) → IsTrue (is_numeral n) → IsReduced (numeral_value n).num (numeral_value n).den }
{}

/// `cmp` is the order of the rational numbers.
pub fn fractions_are_ordered()
    ensures { IsOrder frac_order }
{}

/// Rounding gives `sign(q) * floor(|q| + 1/2)`.
pub fn rounding_is_to_the_nearest()
    ensures { (n : ℤ) (d : ℕ) → 0 < d → IsNearest n d (rounded n d) }
{}

/// The text of a fraction reads as that fraction.
pub fn fractions_read_back(f: Frac)
    ensures { read_fraction (decimal_bytes f) ≡ Ok f }
{
    let _ = f.den();
}

/// The text of an amount reads as its cents over 100.
pub fn amounts_read_back(m: Money)
    ensures { read_fraction (money_bytes m) ≡ frac_of m (pos 100) }
{
    let _ = m.get();
}

/// A decimal text has the fewest places with which the fraction can be written; where there is none, 9 are too few.
pub fn decimals_are_shortest(f: Frac)
    ensures { HasFewestPlaces f }
{
    let _ = f.den();
}
