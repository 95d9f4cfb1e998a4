//! Numbers, days and durations as a line spells them.

use cat_date::{Day, Span, read_day};
use cat_num::{Frac, Money, Whole};
use cat_rows::{Arguments, Problem};

pub fn whole(given: &mut Arguments<'_>) -> Result<Whole, Problem> {
    Whole::new(given.integer()?).ok_or(Problem::Unreadable)
}

/// An amount, given in cents.
pub fn money(given: &mut Arguments<'_>) -> Result<Money, Problem> {
    Money::new(given.integer()?).ok_or(Problem::Unreadable)
}

/// A fraction, given as a numerator and a denominator with `/` between, or as a whole number.
pub fn frac(given: &mut Arguments<'_>) -> Result<Frac, Problem> {
    let word = given.word();
    let (num, den) = word.split_once('/').unwrap_or((word, "1"));
    let num = Arguments::of(num).integer()?;
    let den = Arguments::of(den).integer()?;
    Frac::new(num as i128, den as i128)
        .ok()
        .ok_or(Problem::Unreadable)
}

pub fn day(given: &mut Arguments<'_>) -> Result<Day, Problem> {
    read_day(given.word().as_bytes())
        .ok()
        .ok_or(Problem::Unreadable)
}

/// A duration, given as its months and its days.
pub fn span(given: &mut Arguments<'_>) -> Result<Span, Problem> {
    let months = given.integer()?;
    let days = given.integer()?;
    if months == i64::MIN || days == i64::MIN {
        return Err(Problem::Unreadable);
    }
    Ok(Span::from_parts(months, days))
}
