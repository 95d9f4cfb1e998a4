//! Cuts and points as an answer shows them.

use cat_date::show_day;
use cat_num::Frac;
use cat_region::{Cut, Point, Threshold};
use std::alloc::{AllocError, Global};

/// A whole number, cents, a day, a fraction, a truth value, or the number of a case.
pub fn show_point(alloc: Global, point: Point) -> Result<String, AllocError> {
    match point {
        Point::Whole(whole) => {
            let number = whole.get();
            format!(in alloc; "{number}")
        }
        Point::Money(money) => {
            let cents = money.get();
            format!(in alloc; "{cents}")
        }
        Point::Day(day) => show_day(alloc, day),
        Point::Decimal(frac) => show_frac(alloc, frac),
        Point::Truth(truth) => format!(in alloc; "{truth}"),
        Point::Case(case) => format!(in alloc; "{case}"),
    }
}

fn show_frac(alloc: Global, frac: Frac) -> Result<String, AllocError> {
    let (num, den) = (frac.num(), frac.den());
    if den == 1 {
        format!(in alloc; "{num}")
    } else {
        format!(in alloc; "{num}/{den}")
    }
}

fn show_threshold(alloc: Global, threshold: Threshold) -> Result<String, AllocError> {
    match threshold {
        Threshold::Whole(whole) => show_point(alloc, Point::Whole(whole)),
        Threshold::Money(money) => show_point(alloc, Point::Money(money)),
        Threshold::Day(day) => show_day(alloc, day),
        Threshold::Decimal(frac) => show_frac(alloc, frac),
    }
}

pub fn show_cut(alloc: Global, cut: Cut) -> Result<String, AllocError> {
    match cut {
        Cut::Below(threshold) => {
            let threshold = show_threshold(alloc, threshold)?;
            format!(in alloc; "below {threshold}")
        }
        Cut::AtMost(threshold) => {
            let threshold = show_threshold(alloc, threshold)?;
            format!(in alloc; "at_most {threshold}")
        }
        Cut::IsTrue => String::from_str(alloc, "true"),
        Cut::IsCase(case) => format!(in alloc; "case {case}"),
    }
}
