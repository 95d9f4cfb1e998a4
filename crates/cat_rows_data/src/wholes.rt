//! Calls on whole numbers.

use crate::fractions;
use crate::operands::whole;
use cat_num::{NumFault, Whole};
use cat_rows::{Arguments, Problem};
use std::alloc::Global;

#[derive(Clone, Copy)]
enum Call {
    New,
    Add,
    Sub,
    Mul,
    Neg,
    Compare,
    Over,
}

const CALLS: [(&str, Call); 7] = [
    ("new", Call::New),
    ("add", Call::Add),
    ("sub", Call::Sub),
    ("mul", Call::Mul),
    ("neg", Call::Neg),
    ("compare", Call::Compare),
    ("over", Call::Over),
];

pub fn whole_answer(alloc: Global, given: &mut Arguments<'_>) -> Result<String, Problem> {
    match given.choice(&CALLS)? {
        Call::New => new(alloc, given.integer()?),
        Call::Add => answered(alloc, whole(given)?.add(whole(given)?)),
        Call::Sub => answered(alloc, whole(given)?.sub(whole(given)?)),
        Call::Mul => answered(alloc, whole(given)?.mul(whole(given)?)),
        Call::Neg => answered(alloc, Ok(whole(given)?.neg())),
        Call::Compare => {
            let order = whole(given)?.cmp(whole(given)?);
            Ok(format!(in alloc; "{order:?}")?)
        }
        Call::Over => fractions::answered(alloc, whole(given)?.over(whole(given)?)),
    }
}

fn new(alloc: Global, n: i64) -> Result<String, Problem> {
    match Whole::new(n) {
        Some(whole) => answered(alloc, Ok(whole)),
        None => Ok(String::from_str(alloc, "none")?),
    }
}

/// The number or the fault.
fn answered(alloc: Global, given: Result<Whole, NumFault>) -> Result<String, Problem> {
    match given {
        Ok(whole) => {
            let n = whole.get();
            Ok(format!(in alloc; "{n}")?)
        }
        Err(fault) => Ok(format!(in alloc; "{fault:?}")?),
    }
}
