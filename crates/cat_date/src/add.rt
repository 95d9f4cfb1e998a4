//! Adds a duration to a day: the months first, then the days.
ghost use Rattle.std.specs.Prelude.{◌≡◌, pos, ◌+ℤ◌};
ghost use Rattle.std.specs.Int.{IsInRange};
ghost use Rattle.jiff_core.specs.Calendar.{days_in_month};
ghost use Rattle.cat_date.specs.Calendar.{in_range, day_number};
ghost use Rattle.cat_date.specs.Add.{month_index, day_of_month, date_plus_months, day_plus_span};

use crate::{DateFault, Day, Rounding, Span};
use jiff::civil::{Date, date};

/// The day with the months added and then the days. A month that lacks the day gives the first of the next month, its
/// last day or `AmbiguousDate`, as the rounding says; a year or a day outside the range of dates is `Overflow`.
pub fn add_span(d: Day, s: Span, r: Rounding) -> Result<Day, DateFault>
    ensures { result ≡ day_plus_span d s r }
{
    let moved = plus_months(d.date(), s.months(), r)?;
    plus_days(moved, s.days())
}

#[tactic(auto, unfolding(crate::specs::Add::date_plus_months))]
fn plus_months(date: Date, months: i64, rounding: Rounding) -> Result<Day, DateFault>
    ensures { result
        ≡ date_plus_months (record { year = date.year; month = date.month; day = date.day }) months rounding }
{
    let index = index_after(date, months);
    if index < 12 || index >= 120_000 {
        return Err(DateFault::Overflow);
    }
    let index = index as u32;
    in_month(index / 12, index % 12 + 1, date.day() as u32, rounding)
}

/// The index of the month so many months after the date's, where January of the year 0 has the index 0.
fn index_after(date: Date, months: i64) -> i128
    ensures { result ≡ month_index (record { year = date.year; month = date.month; day = date.day }) months }
{
    12 * date.year() as i128 + (date.month() as i128 - 1) + months as i128
}

#[tactic(auto, unfolding(crate::specs::Add::day_of_month))]
fn in_month(year: u32, month: u32, day: u32, rounding: Rounding) -> Result<Day, DateFault>
    requires year_in { IsInRange 1 9999 year }
    requires month_in { IsInRange 1 12 month }
    requires day_in { IsInRange 1 31 day }
    ensures { result ≡ day_of_month rounding (pos year) month day }
{
    let length = length_of_month(year, month);
    if day <= length {
        return Ok(day_on(year, month, day));
    }
    match rounding {
        // December has every day, so that the next month is of the same year.
        Rounding::Up => Ok(day_on(year, month + 1, 1)),
        Rounding::Down => Ok(day_on(year, month, length)),
        Rounding::Refuse => Err(DateFault::AmbiguousDate),
    }
}

fn length_of_month(year: u32, month: u32) -> u32
    requires year_in { IsInRange 1 9999 year }
    requires month_in { IsInRange 1 12 month }
    ensures value { result ≡ days_in_month (pos year) month }
    ensures some { IsInRange 28 31 result }
{
    date(year as i16, month as i8, 1).days_in_month() as u32
}

fn day_on(year: u32, month: u32, day: u32) -> Day
    requires year_in { IsInRange 1 9999 year }
    requires month_in { IsInRange 1 12 month }
    requires day_in { IsInRange 1 (days_in_month (pos year) month) day }
    ensures { result ≡ day_number (pos year) month day }
{
    Day::from_date(date(year as i16, month as i8, day as i8))
}

fn plus_days(day: Day, days: i64) -> Result<Day, DateFault>
    ensures { result ≡ in_range (day +ℤ days) }
{
    let Ok(plain) = day.date().to_plain().checked_add(days) else {
        return Err(DateFault::Overflow);
    };
    let date = Date::from_plain(plain);
    if date.year() < 1 {
        return Err(DateFault::Overflow);
    }
    Ok(Day::from_date(date))
}
