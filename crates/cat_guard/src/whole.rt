// A target before anything is known of its definitions.
ghost use Rattle.std.specs.Prelude.{◌≡◌, ◌<◌, true, ℕ, Bool, Option, All, IsTrue, IfOk, IfSome, length, slice_get};
ghost use Rattle.cat_scope.specs.Chains.{is_within};
ghost use Rattle.cat_guard.specs.Soundness.{above};
ghost use Rattle.cat_guard.specs.Live.{IsLiveOf};
ghost use Rattle.cat_guard.specs.inside.Whole.{groups_are_sound, IsWholeGroup, AreWholeGroups};

use crate::judge::LONGEST_CHAIN;
use crate::live::{LiveGroup, LiveGroups};
use crate::{Table, TableTarget};
use cat_pos::List;
use std::alloc::{AllocError, Global};

/// A group. No chain of groups that begins with it has more than `room`.
#[cycle(whole)]
fn whole_group(
    alloc: Global,
    target: &TableTarget,
    room: u32,
    number: u32,
) -> Result<LiveGroup, AllocError>
    requires sound { IsTrue (groups_are_sound target.now) }
    requires number { number < length target.now.groups }
    requires short { is_within (above target.now.groups) room number ≡ true }
    ensures { IfOk result (IsWholeGroup target.now room number) }
{
    let group = target.groups.at(number as usize);
    let excepted_by = whole_groups(alloc, target, room - 1, group.excepted_by.as_slice())?;
    let defs = List::from_slice(alloc, group.defs.as_slice())?;
    Ok(LiveGroup { excepted_by, defs })
}

/// Some groups.
#[cycle(whole)]
fn whole_groups(
    alloc: Global,
    target: &TableTarget,
    room: u32,
    numbers: &[u32],
) -> Result<LiveGroups, AllocError>
    requires sound { IsTrue (groups_are_sound target.now) }
    requires numbers { All (λ n. n < length target.now.groups) numbers.now }
    requires short { All (λ n. is_within (above target.now.groups) room n ≡ true) numbers.now }
    ensures { IfOk result (AreWholeGroups target.now room numbers.now) }
{
    let mut groups = List::new(alloc);
    for &number in numbers {
        let made = whole_group(alloc, target, room, number)?;
        groups.push(made)?;
    }
    Ok(groups)
}

/// All groups and definitions of the target of that number.
pub(crate) fn all_live(alloc: Global, table: &Table, target: u32) -> Result<LiveGroups, AllocError>
    requires { target < length table.now.targets }
    ensures { IfOk result (λ live. IfSome (slice_get table.now.targets target)
        (λ t. (answers : ℕ → Option Bool) → IsLiveOf t answers live)) }
{
    let target = table.targets.at(target as usize);
    whole_groups(alloc, target, LONGEST_CHAIN, target.roots.as_slice())
}
