//! Calls on amounts of money.

use crate::fractions;
use crate::operands::{frac, money};
use cat_num::{Money, NumFault, money_over, money_text, money_times, round_units};
use cat_rows::{Arguments, Problem};
use std::alloc::Global;

#[derive(Clone, Copy)]
enum Call {
    New,
    Add,
    Sub,
    Neg,
    Compare,
    Ratio,
    Times,
    Over,
    Units,
    Text,
}

const CALLS: [(&str, Call); 10] = [
    ("new", Call::New),
    ("add", Call::Add),
    ("sub", Call::Sub),
    ("neg", Call::Neg),
    ("compare", Call::Compare),
    ("ratio", Call::Ratio),
    ("times", Call::Times),
    ("over", Call::Over),
    ("units", Call::Units),
    ("text", Call::Text),
];

pub fn money_answer(alloc: Global, given: &mut Arguments<'_>) -> Result<String, Problem> {
    match given.choice(&CALLS)? {
        Call::New => new(alloc, given.integer()?),
        Call::Add => answered(alloc, money(given)?.add(money(given)?)),
        Call::Sub => answered(alloc, money(given)?.sub(money(given)?)),
        Call::Neg => answered(alloc, Ok(money(given)?.neg())),
        Call::Compare => {
            let order = money(given)?.cmp(money(given)?);
            Ok(format!(in alloc; "{order:?}")?)
        }
        Call::Ratio => fractions::answered(alloc, money(given)?.over(money(given)?)),
        Call::Times => answered(alloc, money_times(money(given)?, frac(given)?)),
        Call::Over => answered(alloc, money_over(money(given)?, frac(given)?)),
        Call::Units => answered(alloc, Ok(round_units(money(given)?))),
        Call::Text => Ok(money_text(alloc, money(given)?)?),
    }
}

fn new(alloc: Global, cents: i64) -> Result<String, Problem> {
    match Money::new(cents) {
        Some(money) => answered(alloc, Ok(money)),
        None => Ok(String::from_str(alloc, "none")?),
    }
}

/// The cents or the fault.
fn answered(alloc: Global, given: Result<Money, NumFault>) -> Result<String, Problem> {
    match given {
        Ok(money) => {
            let cents = money.get();
            Ok(format!(in alloc; "{cents}")?)
        }
        Err(fault) => Ok(format!(in alloc; "{fault:?}")?),
    }
}
