//! Calls on days.

use crate::operands::{day, span};
use cat_date::{
    DateFault, Day, Rounding, Span, add_span, cmp_day, day_of, days_between, month, number,
    read_day, show_day, year,
};
use cat_rows::{Arguments, Problem};
use std::alloc::Global;

#[derive(Clone, Copy)]
enum Call {
    Read,
    Of,
    Parts,
    Compare,
    Between,
    Add,
}

const CALLS: [(&str, Call); 6] = [
    ("read", Call::Read),
    ("of", Call::Of),
    ("parts", Call::Parts),
    ("compare", Call::Compare),
    ("between", Call::Between),
    ("add", Call::Add),
];

pub fn day_answer(alloc: Global, given: &mut Arguments<'_>) -> Result<String, Problem> {
    match given.choice(&CALLS)? {
        Call::Read => answered(alloc, read_day(given.rest().as_bytes())),
        Call::Of => of(alloc, given),
        Call::Parts => parts(alloc, day(given)?),
        Call::Compare => {
            let order = cmp_day(day(given)?, day(given)?);
            Ok(format!(in alloc; "{order:?}")?)
        }
        Call::Between => {
            let days = days_between(day(given)?, day(given)?).days();
            Ok(format!(in alloc; "{days}")?)
        }
        Call::Add => sums(alloc, day(given)?, span(given)?),
    }
}

/// The day of a year, a month and a day of the month.
fn of(alloc: Global, given: &mut Arguments<'_>) -> Result<String, Problem> {
    let year = i32::try_from(given.count()?)
        .ok()
        .ok_or(Problem::Unreadable)?;
    answered(alloc, Day::of(year, given.count()?, given.count()?))
}

/// The day's number, year, month and day of the month.
fn parts(alloc: Global, day: Day) -> Result<String, Problem> {
    let (number, year, month, day) = (number(day), year(day), month(day), day_of(day));
    Ok(format!(in alloc; "{number} {year} {month} {day}")?)
}

/// The sum rounded up, rounded down and not rounded.
fn sums(alloc: Global, day: Day, span: Span) -> Result<String, Problem> {
    let up = answered(alloc, add_span(day, span, Rounding::Up))?;
    let down = answered(alloc, add_span(day, span, Rounding::Down))?;
    let refuse = answered(alloc, add_span(day, span, Rounding::Refuse))?;
    Ok(format!(in alloc; "{up} {down} {refuse}")?)
}

/// The day or the fault.
fn answered(alloc: Global, given: Result<Day, DateFault>) -> Result<String, Problem> {
    match given {
        Ok(day) => Ok(show_day(alloc, day)?),
        Err(fault) => Ok(format!(in alloc; "{fault:?}")?),
    }
}
