//! Days by their numbers. `jiff` says which dates exist, which number a date has and which date a number.
ghost use Rattle.std.specs.Prelude.{◌≡◌, pos, ◌-ℤ◌, ◌≤ℤ◌};
ghost use Rattle.std.specs.Ordering.{int_cmp};
ghost use Rattle.jiff_core.specs.Calendar.{IsEpochDay};
ghost use Rattle.jiff_core.specs.Date.{epoch_day};
ghost use Rattle.cat_date.specs.Calendar.{first_day, last_day, IsDay, civil_of, day_number, day_of_civil};
ghost use Rattle.cat_date.specs.Span.{span_of_days};

use crate::{DateFault, Span};
use jiff::civil::{Date, date};
use std::cmp::Ordering;
use std::marker::Model;

/// A day from 0001-01-01 to 9999-12-31 of the proleptic Gregorian calendar.
#[derive(Clone, Copy, PartialEq, Eq, PartialOrd, Ord, Hash, Debug)]
pub struct Day {
    number: i64,
}

impl Model for Day {
    ghost use Rattle.std.specs.Prelude.{ℤ};

    ghost Value = { ℤ };

    ghost use Rattle.cat_date.specs.Calendar.{IsDay};

    ghost view = { λ day. day.number };

    ghost invariant = { λ day. IsDay day.number };

    ghost inverse = { λ n. record { number = n } };
}

impl Day {
    /// 0001-01-01.
    pub fn first() -> Day
        ensures { result ≡ first_day }
    {
        Day { number: -719_162 }
    }

    /// 9999-12-31.
    pub fn last() -> Day
        ensures { result ≡ last_day }
    {
        Day { number: 2_932_896 }
    }

    /// The day with that number, where 1970-01-01 is 0.
    pub fn from_number(number: i64) -> Day
        requires { IsDay number }
        ensures { result ≡ number }
    {
        Day { number }
    }

    /// The day of that year, month and day of the month; `NotADay` where the calendar has none from the year 1 to 9999.
    #[tactic(auto, unfolding(crate::specs::Calendar::day_of_civil))]
    pub fn of(year: i32, month: u32, day: u32) -> Result<Day, DateFault>
        ensures { result ≡ day_of_civil year month day }
    {
        if year < 1 || year > 9999 || month > 12 || day > 31 {
            return Err(DateFault::NotADay);
        }
        match Date::new(year as i16, month as i8, day as i8) {
            Ok(date) => Ok(Day::from_date(date)),
            Err(_) => Err(DateFault::NotADay),
        }
    }

    /// The day of a date of `jiff`.
    pub(crate) fn from_date(date: Date) -> Day
        requires { pos 1 ≤ℤ date.year }
        ensures { result ≡ day_number date.year date.month date.day }
    {
        Day {
            number: epoch_days(date),
        }
    }

    /// The date of `jiff` on that day.
    pub(crate) fn date(self) -> Date
        ensures value { epoch_day result ≡ self }
        ensures parts { civil_of self ≡ record { year = result.year; month = result.month; day = result.day } }
        ensures in_range { pos 1 ≤ℤ result.year }
    {
        let number = self.number;
        date_at(number)
    }
}

/// 1970-01-01.
fn epoch() -> Date
    ensures { epoch_day result ≡ pos 0 }
{
    date(1970, 1, 1)
}

fn epoch_days(date: Date) -> i64
    ensures { result ≡ epoch_day date }
{
    epoch().to_plain().until(date.to_plain()) as i64
}

fn date_at(number: i64) -> Date
    requires { IsEpochDay number }
    ensures { epoch_day result ≡ number }
{
    Date::from_plain(epoch().to_plain().checked_add(number).unwrap())
}

/// The days since 1970-01-01, negative before it.
pub fn number(day: Day) -> i64
    ensures value { result ≡ day }
    ensures range { IsDay result }
{
    day.number
}

/// The year, from 1 to 9999.
pub fn year(day: Day) -> i64
    ensures { result ≡ (civil_of day).year }
{
    day.date().year() as i64
}

/// The month, from 1 to 12.
pub fn month(day: Day) -> i64
    ensures { result ≡ pos (civil_of day).month }
{
    day.date().month() as i64
}

/// The day of the month, from 1.
pub fn day_of(day: Day) -> i64
    ensures { result ≡ pos (civil_of day).day }
{
    day.date().day() as i64
}

/// The order of two days in time.
pub fn cmp_day(a: Day, b: Day) -> Ordering
    ensures { result ≡ int_cmp a b }
{
    a.cmp(&b)
}

/// The days from `earlier` to `later`, negative where `later` comes first.
pub fn days_between(later: Day, earlier: Day) -> Span
    ensures { result ≡ span_of_days (later -ℤ earlier) }
{
    Span::from_parts(0, later.number - earlier.number)
}
