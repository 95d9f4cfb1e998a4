//! The texts of fractions and of amounts.

ghost use Rattle.std.specs.Prelude.{◌≡◌, ◌==◌, ◌%◌, ◌<◌, ◌≤◌, ◌^◌, unsigned_abs, IfSome, IfOk, string_bytes, position};
ghost use Rattle.cat_num.specs.Text.{decimal_places, filled, with_places, decimal_bytes, money_bytes};
ghost use Rattle.cat_num.specs.Whole.{largest};

use crate::frac::Frac;
use crate::money::Money;
use std::alloc::{AllocError, Global};

/// The powers of ten up to 10^9.
const POWERS: [u64; 10] = [
    1,
    10,
    100,
    1_000,
    10_000,
    100_000,
    1_000_000,
    10_000_000,
    100_000_000,
    1_000_000_000,
];

/// The index of the first power that the denominator divides.
fn first_divided(powers: &[u64], den: u64) -> Option<usize>
    requires { 0 < den }
    ensures { result ≡ position (λ power. power % den == 0) powers.now }
{
    powers.iter().position(|power| power % den == 0)
}

/// The fewest decimal places of a fraction with the denominator, where it divides 10^9.
fn places_of(den: u64) -> Option<usize>
    requires { 0 < den }
    ensures value { result ≡ decimal_places den }
    ensures low { IfSome result (λ places. places ≤ 9) }
    ensures divides { IfSome result (λ places. den ≤ 10 ^ places) }
{
    first_divided(&POWERS, den)
}

/// The number in decimal, filled with zeros to the width.
#[tactic(auto, using(crate::proofs::Texts::zeros))]
fn filled_text(alloc: Global, number: u64, width: usize) -> Result<String, AllocError>
    requires { 0 < width }
    ensures { IfOk result (λ text. string_bytes text ≡ filled width number) }
{
    format!(in alloc; "{number:0width$}")
}

/// The fraction `num / den` with the given number of decimal places, where the denominator divides their power of ten.
fn fixed_text(alloc: Global, num: i64, den: u64, places: usize) -> Result<String, AllocError>
    requires num { unsigned_abs num ≤ largest }
    requires positive { 0 < den }
    requires places { places ≤ 9 }
    requires den { den ≤ 10 ^ places }
    ensures { IfOk result (λ text. string_bytes text ≡ with_places places num den) }
{
    let sign = if num < 0 { "-" } else { "" };
    let size = num.unsigned_abs();
    let units = size / den;
    let mut text = format!(in alloc; "{sign}{units}")?;
    if places > 0 {
        let part = size % den * 10_u64.pow(places as u32) / den;
        text.push('.')?;
        text.push_str(filled_text(alloc, part, places)?.as_str())?;
    }
    Ok(text)
}

/// The shortest decimal, as `3` or `-0.25`, where the denominator divides 10^9; otherwise `num/den`, as `-1/3`.
#[tactic(auto, unfolding(crate::specs::Text::decimal_bytes))]
pub fn decimal_text(alloc: Global, f: Frac) -> Result<String, AllocError>
    ensures { IfOk result (λ text. string_bytes text ≡ decimal_bytes f) }
{
    let num = f.num();
    let den = f.den() as u64;
    match places_of(den) {
        Some(places) => fixed_text(alloc, num, den, places),
        None => format!(in alloc; "{num}/{den}"),
    }
}

/// The sign, the units, a point and two digits, as `-0.05`.
#[tactic(auto, unfolding(crate::specs::Text::money_bytes))]
pub fn money_text(alloc: Global, m: Money) -> Result<String, AllocError>
    ensures { IfOk result (λ text. string_bytes text ≡ money_bytes m) }
{
    fixed_text(alloc, m.get(), 100, 2)
}
