//! Calls on fractions.

use crate::operands::frac;
use cat_num::{
    DecimalLiteral, Frac, NumFault, are_equal, decimal_text, frac_of_decimal, round_half_away,
    truncate,
};
use cat_rows::{Arguments, Problem};
use std::alloc::{AllocError, Global};

#[derive(Clone, Copy)]
enum Call {
    New,
    Add,
    Sub,
    Mul,
    Div,
    Neg,
    Compare,
    Equal,
    Round,
    Truncate,
    Text,
    Decimal,
}

const CALLS: [(&str, Call); 12] = [
    ("new", Call::New),
    ("add", Call::Add),
    ("sub", Call::Sub),
    ("mul", Call::Mul),
    ("div", Call::Div),
    ("neg", Call::Neg),
    ("compare", Call::Compare),
    ("equal", Call::Equal),
    ("round", Call::Round),
    ("truncate", Call::Truncate),
    ("text", Call::Text),
    ("decimal", Call::Decimal),
];

pub fn frac_answer(alloc: Global, given: &mut Arguments<'_>) -> Result<String, Problem> {
    match given.choice(&CALLS)? {
        Call::New => new(alloc, given.integer()?, given.integer()?),
        Call::Add => answered(alloc, frac(given)?.add(frac(given)?)),
        Call::Sub => answered(alloc, frac(given)?.sub(frac(given)?)),
        Call::Mul => answered(alloc, frac(given)?.mul(frac(given)?)),
        Call::Div => answered(alloc, frac(given)?.div(frac(given)?)),
        Call::Neg => Ok(shown(alloc, frac(given)?.neg())?),
        Call::Compare => {
            let order = frac(given)?.cmp(frac(given)?);
            Ok(format!(in alloc; "{order:?}")?)
        }
        Call::Equal => {
            let equal = are_equal(frac(given)?, frac(given)?);
            Ok(format!(in alloc; "{equal}")?)
        }
        Call::Round => {
            let whole = round_half_away(frac(given)?).get();
            Ok(format!(in alloc; "{whole}")?)
        }
        Call::Truncate => {
            let whole = truncate(frac(given)?).get();
            Ok(format!(in alloc; "{whole}")?)
        }
        Call::Text => Ok(decimal_text(alloc, frac(given)?)?),
        Call::Decimal => decimal(alloc, given.integer()?, given.count()?),
    }
}

fn new(alloc: Global, num: i64, den: i64) -> Result<String, Problem> {
    answered(alloc, Frac::new(num as i128, den as i128))
}

/// The decimal of these digits, so many of them behind the point.
fn decimal(alloc: Global, digits: i64, places: u32) -> Result<String, Problem> {
    if digits < 0 {
        return Err(Problem::Unreadable);
    }
    match DecimalLiteral::new(digits as u64, places) {
        Some(literal) => Ok(shown(alloc, frac_of_decimal(literal))?),
        None => Err(Problem::Unreadable),
    }
}

/// The fraction or the fault.
pub fn answered(alloc: Global, given: Result<Frac, NumFault>) -> Result<String, Problem> {
    match given {
        Ok(f) => Ok(shown(alloc, f)?),
        Err(fault) => Ok(format!(in alloc; "{fault:?}")?),
    }
}

/// A fraction by its parts, whose denominator is left out where it is 1.
fn shown(alloc: Global, f: Frac) -> Result<String, AllocError> {
    let (num, den) = (f.num(), f.den());
    if den == 1 {
        return format!(in alloc; "{num}");
    }
    format!(in alloc; "{num}/{den}")
}
