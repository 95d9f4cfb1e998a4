// The way round a cycle.
ghost use Rattle.std.specs.Prelude.{◌≡◌, ◌<◌, length, IfOk};
ghost use Rattle.cat_order.specs.Order.{AreItems};
ghost use Rattle.cat_order.specs.Cycle.{IsOnCycle};
ghost use Rattle.cat_depend.specs.CycleWays.{IsNextOnCycle};
ghost use Rattle.cat_depend.specs.inside.Searching.{IsSearched, Finds};

use cat_pos::Numbers;
use std::alloc::{AllocError, Global};

/// Whether a number leads to the goal. On the way it marks what doesn't, and it passes over what is marked.
fn leads_to(
    alloc: Global,
    deps: &[Numbers],
    goal: u32,
    marks: &mut [bool],
    from: u32,
) -> Result<bool, AllocError>
    requires items { AreItems deps.now }
    requires from { from < length deps.now }
    requires searched { IsSearched deps.now goal marks.old }
    ensures { IfOk result (Finds deps.now goal from marks.old marks.new) }
{
    let mut waiting = Vec::new(alloc);
    waiting.push(from)?;
    while let Some(number) = waiting.pop() {
        if number == goal {
            return Ok(true);
        }
        if marks[number as usize] {
            continue;
        }
        marks[number as usize] = true;
        waiting.extend_from_slice(deps[number as usize].as_slice())?;
    }
    Ok(false)
}

/// The first of those that a number on a cycle leads to at once from which a way leads back. It takes time in
/// proportion to the dependencies.
pub fn next_on_cycle(alloc: Global, deps: &[Numbers], start: u32) -> Result<u32, AllocError>
    requires items { AreItems deps.now }
    requires on_cycle { IsOnCycle deps.now start }
    ensures { IfOk result (IsNextOnCycle deps.now start) }
{
    let mut marks = vec![in alloc; false; deps.len()]?;
    for &next in deps[start as usize].as_slice() {
        if leads_to(alloc, deps, start, &mut marks, next)? {
            return Ok(next);
        }
    }
    unreachable!()
}
