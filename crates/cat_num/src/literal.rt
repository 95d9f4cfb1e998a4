//! Decimals as they are written.

ghost use Rattle.std.specs.Prelude.{◌≡◌, ◌↔◌, ◌≤◌, IsTrue, IsSome, IfSome};
ghost use Rattle.cat_num.specs.Numerals.{IsNumeral, is_numeral};

use std::marker::Model;

/// A decimal as it is written: the number that its digits spell without the point, and how many of them stand behind
/// the point. There are at most 9 of these, and at most 9 before the point; the two places of a percentage count.
/// It takes 8 bytes, so that no literal needs more than any other.
#[derive(Clone, Copy, PartialEq, Eq, Debug)]
pub struct DecimalLiteral {
    /// `digits * PLACES + places`.
    packed: u64,
}

/// More than the places that a decimal may have.
const PLACES: u64 = 16;

impl Model for DecimalLiteral {
    ghost use Rattle.std.specs.Prelude.{◌*◌, ◌+◌, ◌/◌, ◌%◌};
    ghost use Rattle.std.proofs.lemmas.Nat.{div-add-mod'};
    ghost use Rattle.cat_num.specs.Numerals.{Numeral, IsNumeral};

    ghost Value = { Numeral };

    ghost view = { λ d. record { digits = d.packed / 16; places = d.packed % 16 } };

    ghost invariant = { λ d. IsNumeral (d.packed / 16) (d.packed % 16) };

    ghost inverse = { λ n. record { packed = n.digits * 16 + n.places } };

    ghost inverse_ok = { λ d h i. record { packed = div-add-mod' d.packed 16 i } };
}

impl DecimalLiteral {
    /// The decimal with the given digits, the last `places` of them behind the point, or None past a bound.
    pub fn new(digits: u64, places: u32) -> Option<DecimalLiteral>
        ensures some { IsSome result ↔ IsNumeral digits places }
        ensures value { IfSome result (λ literal. literal ≡ record { digits = digits; places = places }) }
    {
        if places > 9 || digits >= 10_u64.pow(9 + places) {
            return None;
        }
        Some(DecimalLiteral {
            packed: digits * PLACES + u64::from(places),
        })
    }

    /// The number that the digits spell without the point, below 10^18.
    pub fn digits(self) -> u64
        ensures value { result ≡ self.digits }
        ensures bounded { IsNumeral self.digits self.places }
        ensures tested { IsTrue (is_numeral self) }
    {
        self.packed / PLACES
    }

    /// How many digits stand behind the point, at most 9.
    pub fn places(self) -> u32
        ensures value { result ≡ self.places }
        ensures few { result ≤ 9 }
    {
        (self.packed % PLACES) as u32
    }
}
