// How long chains of calls are.
ghost use Rattle.std.specs.Prelude.{◌≡◌, ◌<◌, length, All, IfOk};
ghost use Rattle.cat_depend.specs.Past.{TellsPast};
ghost use Rattle.cat_depend.specs.inside.Chains.{IsTopological, longest_of};

use cat_pos::Numbers;
use std::alloc::{AllocError, Global};

/// How many functions or scopes a chain of calls may have.
const LONGEST_CHAIN: u32 = 256;

/// How long the longest of the chains from some numbers on is.
fn longest(lengths: &[u32], numbers: &[u32]) -> u32
    requires { All (λ n. n < length lengths.now) numbers.now }
    ensures { result ≡ longest_of lengths.now numbers.now }
{
    let mut longest = 0;
    for &number in numbers {
        longest = lengths[number as usize].max(longest);
    }
    longest
}

/// A number that begins a chain of one more than a chain may have, and of no more, where there is one.
pub fn past_longest(
    alloc: Global,
    deps: &[Numbers],
    order: &[u32],
) -> Result<Option<u32>, AllocError>
    requires { IsTopological deps.now order.now }
    ensures { IfOk result (TellsPast deps.now) }
{
    let mut lengths = vec![in alloc; 0; deps.len()]?;
    for &number in order {
        let rest = longest(&lengths, deps[number as usize].as_slice());
        if rest == LONGEST_CHAIN {
            return Ok(Some(number));
        }
        lengths[number as usize] = rest + 1;
    }
    Ok(None)
}
