// How a target is judged at a leaf.
ghost use Rattle.std.specs.Prelude.{◌≡◌, ◌<◌, IfOk, IfSome, length, slice_get};
ghost use Rattle.cat_guard.specs.Levels.{AreLiveTo};
ghost use Rattle.cat_guard.specs.Valuations.{dims_of};
ghost use Rattle.cat_dead.specs.Leaves.{judged_at};

use crate::judged::LeafJudgement;
use cat_guard::{Judgement, Levels, Table, judge_live, live_winner};
use cat_region::Region;
use std::alloc::{AllocError, Global};

/// How a target is judged in a region, by what is still live of what is kept on the way to it.
pub(crate) fn judge_leaf(
    alloc: Global,
    table: &Table,
    target: u32,
    region: &Region,
    levels: &Levels,
) -> Result<LeafJudgement, AllocError>
    requires target { target < length table.now.targets }
    requires dims { region.now.dims ≡ dims_of table.now.terms }
    requires live { IfSome (slice_get table.now.targets target)
        (λ t. AreLiveTo table.now.atoms t region.now levels.now) }
    ensures { IfSome (slice_get table.now.targets target)
        (λ t. IfOk result (λ judged. judged ≡ judged_at table.now.atoms t region.now)) }
{
    if region.is_empty() {
        return Ok(LeafJudgement::Nothing);
    }
    let live = levels.live_in(alloc, table, target, region)?;
    match judge_live(table, target, region, &live) {
        Judgement::Holds => Ok(LeafJudgement::Wins(live_winner(table, target, region, &live))),
        Judgement::Empty | Judgement::Conflict => Ok(LeafJudgement::NoWinner),
        Judgement::Needs(_) => Ok(LeafJudgement::Open),
    }
}
