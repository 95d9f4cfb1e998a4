//! The dependencies of items, as a line spells or names them.

use cat_pos::{List, NumberLists, Numbers};
use cat_rows::Problem;
use std::alloc::{AllocError, Global};

/// The dependencies that the text lists.
pub fn listed(alloc: Global, text: &str) -> Result<NumberLists, Problem> {
    let mut deps = List::new(alloc);
    for part in text.split_terminator(']') {
        let numbers = part.trim().strip_prefix('[').ok_or(Problem::Unreadable)?;
        deps.push(read_numbers(alloc, numbers)?)?;
    }
    Ok(deps)
}

fn read_numbers(alloc: Global, text: &str) -> Result<Numbers, Problem> {
    let mut numbers = List::new(alloc);
    for word in text.split_whitespace() {
        numbers.push(word.parse::<u32>().ok().ok_or(Problem::Unreadable)?)?;
    }
    Ok(numbers)
}

/// Each item depends on the next one, and the last on these.
pub fn chain(alloc: Global, count: u32, last: &[u32]) -> Result<NumberLists, AllocError> {
    let mut deps = List::new(alloc);
    for next in 1..count {
        deps.push(List::from_slice(alloc, &[next])?)?;
    }
    deps.push(List::from_slice(alloc, last)?)?;
    Ok(deps)
}

/// The first item depends on all the others, and each of those on the item `hub`, named so many times.
pub fn star(alloc: Global, count: u32, hub: u32, times: u32) -> Result<NumberLists, AllocError> {
    let mut deps = List::new(alloc);
    let others: Vec<u32> = (1..count).collect(alloc)?;
    deps.push(List::from_vec(others))?;
    for item in 1..count {
        let uses = if item == hub { 0 } else { times as usize };
        deps.push(List::from_vec(vec![in alloc; hub; uses]?))?;
    }
    Ok(deps)
}
