//! Calls that put items in order.
ghost use Rattle.std.specs.Prelude.{IsTrue};
ghost use Rattle.cat_order.specs.Order.{AreItems};

use crate::dependencies::{chain, listed, star};
use cat_order::{OrderRefusal, order};
use cat_pos::{NumberLists, Numbers};
use cat_rows::{Arguments, Problem, show_numbers};
use std::alloc::Global;

#[derive(Clone, Copy)]
enum Call {
    Of,
    Chain,
    Ring,
    Star,
}

const CALLS: [(&str, Call); 4] = [
    ("of", Call::Of),
    ("chain", Call::Chain),
    ("ring", Call::Ring),
    ("star", Call::Star),
];

/// The order of the items, or that one of them is on a cycle.
pub fn order_answer(alloc: Global, given: &mut Arguments<'_>) -> Result<String, Problem> {
    let deps = dependencies(alloc, given)?;
    ordered(alloc, deps.as_slice())
}

fn dependencies(alloc: Global, given: &mut Arguments<'_>) -> Result<NumberLists, Problem> {
    match given.choice(&CALLS)? {
        Call::Of => listed(alloc, given.rest()),
        Call::Chain => Ok(chain(alloc, given.count()?, &[])?),
        Call::Ring => Ok(chain(alloc, given.count()?, &[0])?),
        Call::Star => Ok(star(alloc, given.count()?, given.count()?, given.count()?)?),
    }
}

fn ordered(alloc: Global, deps: &[Numbers]) -> Result<String, Problem> {
    if deps.len() > u32::MAX as usize || !are_items(deps) {
        return Err(Problem::Unreadable);
    }
    match order(alloc, deps.len() as u32, deps) {
        Ok(listed) => Ok(show_numbers(alloc, listed.as_slice())?),
        Err(OrderRefusal::Cycle(_)) => Ok(String::from_str(alloc, "Cycle")?),
        Err(OrderRefusal::Memory) => Err(Problem::Memory),
    }
}

fn are_items(deps: &[Numbers]) -> bool
    ensures { IsTrue result → AreItems deps.now }
{
    deps.iter().all(|dependencies| {
        dependencies
            .as_slice()
            .iter()
            .all(|item| (*item as usize) < deps.len())
    })
}
