//! Lists of numbers as short texts: `2 1 3..4095 0`, where `a..b` stands for all numbers from a up or down to b.

use std::alloc::{AllocError, Global};

/// Numbers of which each is one more, or each one less, than the one before.
#[derive(Clone, Copy)]
struct Run {
    first: u32,
    last: u32,
}

impl Run {
    /// Whether the number makes the run longer.
    fn takes(self, number: u32) -> bool {
        let upward = self.first <= self.last && self.last.checked_add(1) == Some(number);
        let downward = self.last <= self.first && number.checked_add(1) == Some(self.last);
        upward || downward
    }

    fn push_to(self, alloc: Global, text: &mut String) -> Result<(), AllocError> {
        let Run { first, last } = self;
        if !text.is_empty() {
            text.push_str(" ")?;
        }
        let run = match first.abs_diff(last) {
            0 => format!(in alloc; "{first}")?,
            1 => format!(in alloc; "{first} {last}")?,
            _ => format!(in alloc; "{first}..{last}")?,
        };
        text.push_str(run.as_str())
    }
}

pub fn show_numbers(alloc: Global, numbers: &[u32]) -> Result<String, AllocError> {
    let mut text = String::new(alloc);
    let Some((&first, rest)) = numbers.split_first() else {
        return Ok(text);
    };
    let mut run = Run { first, last: first };
    for &number in rest {
        if run.takes(number) {
            run.last = number;
        } else {
            run.push_to(alloc, &mut text)?;
            run = Run {
                first: number,
                last: number,
            };
        }
    }
    run.push_to(alloc, &mut text)?;
    Ok(text)
}
