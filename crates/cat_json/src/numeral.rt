//! Fractions and amounts as texts.
ghost use Rattle.std.specs.Prelude.{◌≡◌, ◌-◌, ◌++◌, ◌^◌, ◌<◌, ◌≤◌, IsTrue, Some, None, length, unsigned_abs};
ghost use Rattle.cat_num.specs.Frac.{signed, ratio};
ghost use Rattle.cat_num.specs.Reading.{number_after, split_at};
ghost use Rattle.cat_json.specs.Paths.{of_whole};
ghost use Rattle.cat_json.specs.Numerals.{quotient, pointed, plain, are_digits, are_few, cents_of, numeral_fraction};
ghost use Rattle.cat_json.specs.Numerals.{numeral_cents, text_fraction, text_cents, fitting, pointed_or_plain};
ghost use Rattle.cat_json.specs.WholeNumbers.{in_bounds};

use crate::Reason;
use crate::digits::{are_digits, has_minus, number_after, split, without_minus};
use cat_num::{Frac, Money};

/// The most digits of a part.
const MOST_DIGITS: usize = 19;

/// The most digits behind the point of a fraction.
const MOST_PLACES: usize = 9;

/// The fraction that a text stands for, as `-3`, `0.25` or `1/3`.
#[tactic(auto, unfolding(crate::specs::Numerals::text_fraction))]
pub(crate) fn text_fraction(text: &str) -> Result<Frac, Reason>
    ensures { of_whole result ≡ text_fraction text.now }
{
    let text = text.as_bytes();
    let negative = has_minus(text);
    let digits = without_minus(text);
    match split(digits, b'/') {
        Some((num, den)) => quotient_in(negative, num, den),
        None => pointed_or_plain(negative, digits),
    }
}

fn pointed_or_plain(negative: bool, digits: &[u8]) -> Result<Frac, Reason>
    ensures { of_whole result ≡ numeral_fraction negative (pointed_or_plain digits.now (split_at 46 digits.now)) }
{
    match split(digits, b'.') {
        Some((whole, places)) => pointed_in(negative, whole, places),
        None => plain_in(negative, digits),
    }
}

fn quotient_in(negative: bool, num: &[u8], den: &[u8]) -> Result<Frac, Reason>
    ensures { of_whole result ≡ numeral_fraction negative (quotient num.now den.now) }
{
    if !are_digits(num) || !are_digits(den) {
        return Err(Reason::WrongForm);
    }
    if num.len() > MOST_DIGITS || den.len() > MOST_DIGITS {
        return Err(Reason::OutOfRange);
    }
    ratio(negative, number_after(0, num), number_after(0, den))
}

#[tactic(auto, using(crate::proofs::Numerals::numerals))]
fn pointed_in(negative: bool, whole: &[u8], places: &[u8]) -> Result<Frac, Reason>
    ensures { of_whole result ≡ numeral_fraction negative (pointed whole.now places.now) }
{
    if !are_digits(whole) || !are_digits(places) || places.len() > MOST_PLACES {
        return Err(Reason::WrongForm);
    }
    if whole.len() > MOST_DIGITS {
        return Err(Reason::OutOfRange);
    }
    let number = number_after(number_after(0, whole), places);
    ratio(negative, number, 10_u128.pow(places.len() as u32))
}

fn plain_in(negative: bool, whole: &[u8]) -> Result<Frac, Reason>
    ensures { of_whole result ≡ numeral_fraction negative (plain whole.now) }
{
    if !are_digits(whole) {
        return Err(Reason::WrongForm);
    }
    if whole.len() > MOST_DIGITS {
        return Err(Reason::OutOfRange);
    }
    ratio(negative, number_after(0, whole), 1)
}

fn ratio(negative: bool, num: u128, den: u128) -> Result<Frac, Reason>
    requires num { num < 10 ^ 38 }
    requires den { den < 10 ^ 38 }
    ensures { of_whole result ≡ fitting (ratio (signed negative num) den) }
{
    match Frac::new(with_sign(negative, num), den as i128) {
        Ok(frac) => Ok(frac),
        Err(_) => Err(Reason::OutOfRange),
    }
}

fn with_sign(negative: bool, size: u128) -> i128
    requires { size < 10 ^ 38 }
    ensures value { result ≡ signed negative size }
    ensures size { unsigned_abs result < 2 ^ 127 }
{
    if negative {
        -(size as i128)
    } else {
        size as i128
    }
}

/// The amount that a text stands for, as `-3`, `3.5` or `3.50`.
#[tactic(auto, unfolding(crate::specs::Numerals::text_cents))]
pub(crate) fn text_cents(text: &str) -> Result<Money, Reason>
    ensures { of_whole result ≡ text_cents text.now }
{
    let text = text.as_bytes();
    let negative = has_minus(text);
    let digits = without_minus(text);
    if split(digits, b'/').is_some() {
        return Err(Reason::WrongForm);
    }
    match split(digits, b'.') {
        Some((whole, places)) => pointed_amount(negative, whole, places),
        None => plain_amount(negative, digits),
    }
}

#[tactic(auto, using(crate::proofs::Numerals::numerals))]
fn pointed_amount(negative: bool, whole: &[u8], places: &[u8]) -> Result<Money, Reason>
    ensures { of_whole result ≡ numeral_cents negative (pointed whole.now places.now) }
{
    if !are_digits(whole) || !are_digits(places) || places.len() > 2 {
        return Err(Reason::WrongForm);
    }
    if whole.len() > MOST_DIGITS {
        return Err(Reason::OutOfRange);
    }
    let number = number_after(number_after(0, whole), places);
    amount(with_sign(negative, number * cents_in_last(places.len())))
}

/// How many cents one of the last of one or two places is.
fn cents_in_last(places: usize) -> u128
    requires few { places ≤ 2 }
    requires some { 0 < places }
    ensures value { result ≡ 10 ^ (2 - places) }
    ensures bound { result ≤ 10 }
{
    if places == 1 { 10 } else { 1 }
}

fn plain_amount(negative: bool, whole: &[u8]) -> Result<Money, Reason>
    ensures { of_whole result ≡ numeral_cents negative (plain whole.now) }
{
    if !are_digits(whole) {
        return Err(Reason::WrongForm);
    }
    if whole.len() > MOST_DIGITS {
        return Err(Reason::OutOfRange);
    }
    amount(with_sign(negative, number_after(0, whole) * 100))
}

/// So many cents, where they are an amount.
pub(crate) fn amount(cents: i128) -> Result<Money, Reason>
    ensures { of_whole result ≡ in_bounds cents }
{
    match i64::try_from(cents) {
        Ok(cents) => Money::new(cents).ok_or(Reason::OutOfRange),
        Err(_) => Err(Reason::OutOfRange),
    }
}
