//! Values without parts, as JSON.
ghost use Rattle.std.specs.Prelude.{◌≡◌, pos, ◌*ℤ◌};
ghost use Rattle.serde_json.specs.View.{view};
ghost use Rattle.serde_json.specs.Find.{as_bool, as_str};
ghost use Rattle.cat_value.specs.declared.value.Value.TheVariants as variant;
ghost use Rattle.cat_json.specs.Paths.{of_whole, made_of};
ghost use Rattle.cat_json.specs.WholeNumbers.{integer_of, in_bounds, whole_in, whole_fraction};
ghost use Rattle.cat_json.specs.Numerals.{text_fraction, text_cents};
ghost use Rattle.cat_json.specs.Scalars.{text_day, truth_in, text_in, fraction_in, cents_in};

use crate::Reason;
use crate::numeral::{amount, text_cents, text_fraction};
use cat_date::{Day, has_date_form, read_day};
use cat_num::{Frac, Money, Whole};
use cat_value::Value;
use serde_json::Value as Json;

pub(crate) fn boolean_in(value: &Json) -> Result<Value, Reason>
    ensures { of_whole result ≡ made_of variant.Boolean (truth_in (as_bool (view value.now))) }
{
    match value.as_bool() {
        Some(truth) => Ok(Value::Boolean(truth)),
        None => Err(Reason::WrongForm),
    }
}

pub(crate) fn integer_in(value: &Json) -> Result<Value, Reason>
    ensures { of_whole result ≡ made_of variant.Integer (whole_in (integer_of (view value.now))) }
{
    Ok(Value::Integer(whole_in(value)?))
}

pub(crate) fn decimal_in(value: &Json) -> Result<Value, Reason>
    ensures { of_whole result ≡ made_of variant.Decimal
        (fraction_in (integer_of (view value.now)) (as_str (view value.now))) }
{
    Ok(Value::Decimal(fraction_in(value)?))
}

pub(crate) fn money_in(value: &Json) -> Result<Value, Reason>
    ensures { of_whole result ≡ made_of variant.Money
        (cents_in (integer_of (view value.now)) (as_str (view value.now))) }
{
    Ok(Value::Money(cents_in(value)?))
}

pub(crate) fn date_in(value: &Json) -> Result<Value, Reason>
    ensures { of_whole result ≡ made_of variant.Date (text_in text_day (as_str (view value.now))) }
{
    match value.as_str() {
        Some(text) => Ok(Value::Date(text_day(text)?)),
        None => Err(Reason::WrongForm),
    }
}

/// The whole number that the reader holds as one.
fn integer_of(value: &Json) -> Option<i128>
    ensures { result ≡ integer_of (view value.now) }
{
    value.as_number()?.as_i128()
}

/// A whole number from -(2^63 - 1) to 2^63 - 1.
pub(crate) fn whole_in(value: &Json) -> Result<Whole, Reason>
    ensures { of_whole result ≡ whole_in (integer_of (view value.now)) }
{
    match integer_of(value) {
        Some(number) => in_bounds(number),
        None => Err(Reason::WrongForm),
    }
}

fn in_bounds(number: i128) -> Result<Whole, Reason>
    ensures { of_whole result ≡ in_bounds number }
{
    match i64::try_from(number) {
        Ok(number) => Whole::new(number).ok_or(Reason::OutOfRange),
        Err(_) => Err(Reason::OutOfRange),
    }
}

fn fraction_in(value: &Json) -> Result<Frac, Reason>
    ensures { of_whole result ≡ fraction_in (integer_of (view value.now)) (as_str (view value.now)) }
{
    match integer_of(value) {
        Some(number) => bounded_fraction(number),
        None => match value.as_str() {
            Some(text) => text_fraction(text),
            None => Err(Reason::WrongForm),
        },
    }
}

fn bounded_fraction(number: i128) -> Result<Frac, Reason>
    ensures { of_whole result ≡ made_of whole_fraction (in_bounds number) }
{
    let number = in_bounds(number)?;
    match Frac::new(number.get() as i128, 1) {
        Ok(frac) => Ok(frac),
        Err(_) => Err(Reason::OutOfRange),
    }
}

fn cents_in(value: &Json) -> Result<Money, Reason>
    ensures { of_whole result ≡ cents_in (integer_of (view value.now)) (as_str (view value.now)) }
{
    match integer_of(value) {
        Some(units) => units_in(units),
        None => match value.as_str() {
            Some(text) => text_cents(text),
            None => Err(Reason::WrongForm),
        },
    }
}

/// So many units of 100 cents.
fn units_in(units: i128) -> Result<Money, Reason>
    ensures { of_whole result ≡ in_bounds (units *ℤ pos 100) }
{
    match i64::try_from(units) {
        Ok(units) => amount(units as i128 * 100),
        Err(_) => Err(Reason::OutOfRange),
    }
}

#[tactic(auto, unfolding(crate::specs::Scalars::text_day))]
fn text_day(text: &str) -> Result<Day, Reason>
    ensures { of_whole result ≡ text_day text.now }
{
    let text = text.as_bytes();
    if !has_date_form(text) {
        return Err(Reason::WrongForm);
    }
    match read_day(text) {
        Ok(day) => Ok(day),
        Err(_) => Err(Reason::OutOfRange),
    }
}
