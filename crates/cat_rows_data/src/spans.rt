//! Calls on durations, each given as its months and its days.

use crate::operands::span;
use cat_date::{DateFault, Span, cmp_span, span_add, span_neg, span_sub, span_times};
use cat_rows::{Arguments, Problem};
use std::alloc::Global;

#[derive(Clone, Copy)]
enum Call {
    Add,
    Sub,
    Times,
    Neg,
    Compare,
}

const CALLS: [(&str, Call); 5] = [
    ("add", Call::Add),
    ("sub", Call::Sub),
    ("times", Call::Times),
    ("neg", Call::Neg),
    ("compare", Call::Compare),
];

pub fn span_answer(alloc: Global, given: &mut Arguments<'_>) -> Result<String, Problem> {
    match given.choice(&CALLS)? {
        Call::Add => answered(alloc, span_add(span(given)?, span(given)?)),
        Call::Sub => answered(alloc, span_sub(span(given)?, span(given)?)),
        Call::Times => answered(alloc, span_times(span(given)?, given.integer()?)),
        Call::Neg => answered(alloc, Ok(span_neg(span(given)?))),
        Call::Compare => compared(alloc, span(given)?, span(given)?),
    }
}

fn compared(alloc: Global, left: Span, right: Span) -> Result<String, Problem> {
    match cmp_span(left, right) {
        Ok(order) => Ok(format!(in alloc; "{order:?}")?),
        Err(fault) => Ok(format!(in alloc; "{fault:?}")?),
    }
}

/// The months and the days, or the fault.
fn answered(alloc: Global, given: Result<Span, DateFault>) -> Result<String, Problem> {
    match given {
        Ok(span) => {
            let (months, days) = (span.months(), span.days());
            Ok(format!(in alloc; "{months} {days}")?)
        }
        Err(fault) => Ok(format!(in alloc; "{fault:?}")?),
    }
}
