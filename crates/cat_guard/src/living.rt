// How a target is judged in a region by what is live of it.
ghost use Rattle.std.specs.Prelude.{◌≡◌, ◌<◌, ℕ, IsTrue, IfSome, length, slice_get};
ghost use Rattle.std.specs.List.{list_all};
ghost use Rattle.cat_guard.specs.Judged.{answers_in, judged_in};
ghost use Rattle.cat_guard.specs.Valuations.{dims_of};
ghost use Rattle.cat_guard.specs.Judgements.{IsJudgement};
ghost use Rattle.cat_guard.specs.Verdicts.{Holds as Held};
ghost use Rattle.cat_guard.specs.Live.{IsLiveOf, names_defs, live_verdict, lives_verdict};
ghost use Rattle.cat_guard.specs.inside.Telling.{are_cuts_of};
ghost use Rattle.cat_guard.specs.inside.Found.{Finds};

use crate::judge::judged_defs;
use crate::judgement::Judgement;
use crate::live::{LiveGroup, LiveGroups};
use crate::tally::{MemberJudgement, Tally};
use crate::{Atom, Table, TableTarget};
use cat_region::Region;

/// A group, as the list of those that except it or, where that is Empty, as that of its own definitions.
#[cycle(live)]
fn live_group(
    region: &Region,
    atoms: &[Atom],
    target: &TableTarget,
    group: &LiveGroup,
) -> MemberJudgement
    requires cuts { IsTrue (are_cuts_of region.now.dims atoms.now) }
    requires named { IsTrue (names_defs (length target.now.defs) group.now) }
    ensures { Finds (answers_in atoms.now region.now) target.now
        (live_verdict target.now (answers_in atoms.now region.now) group.now) result }
{
    match live_groups(region, atoms, target, &group.excepted_by) {
        MemberJudgement::Empty => judged_defs(region, atoms, target, group.defs.as_slice()),
        other => other,
    }
}

/// The list of some groups.
#[cycle(live)]
fn live_groups(
    region: &Region,
    atoms: &[Atom],
    target: &TableTarget,
    groups: &LiveGroups,
) -> MemberJudgement
    requires cuts { IsTrue (are_cuts_of region.now.dims atoms.now) }
    requires named { IsTrue (list_all (names_defs (length target.now.defs)) groups.now) }
    ensures { Finds (answers_in atoms.now region.now) target.now
        (lives_verdict target.now (answers_in atoms.now region.now) groups.now) result }
{
    let mut tally = Tally::new();
    for group in groups.as_slice() {
        tally = tally.with_member(live_group(region, atoms, target, group));
    }
    tally.total()
}

/// The target of that number, as the list of what is live of it.
fn living(table: &Table, target: u32, region: &Region, live: &LiveGroups) -> MemberJudgement
    requires target { target < length table.now.targets }
    requires dims { region.now.dims ≡ dims_of table.now.terms }
    requires live { IfSome (slice_get table.now.targets target)
        (λ t. IsLiveOf t (answers_in table.now.atoms region.now) live.now) }
    ensures { IfSome (slice_get table.now.targets target) (λ t. Finds (answers_in table.now.atoms region.now) t
        (judged_in table.now.atoms region.now t) result) }
{
    let atoms = table.atoms.as_slice();
    let target = table.targets.at(target as usize);
    live_groups(region, atoms, target, live)
}

/// How a target is judged in a region, as `judge_box` tells it, where this is live of it there. It costs the guards of
/// what is live, each of which it looks at once.
pub fn judge_live(table: &Table, target: u32, region: &Region, live: &LiveGroups) -> Judgement
    requires target { target < length table.now.targets }
    requires dims { region.now.dims ≡ dims_of table.now.terms }
    requires live { IfSome (slice_get table.now.targets target)
        (λ t. IsLiveOf t (answers_in table.now.atoms region.now) live.now) }
    ensures { IfSome (slice_get table.now.targets target) (λ t. IsJudgement (answers_in table.now.atoms region.now) t
        result) }
{
    match living(table, target, region, live) {
        MemberJudgement::Holds(_) => Judgement::Holds,
        MemberJudgement::Empty => Judgement::Empty,
        MemberJudgement::Conflict => Judgement::Conflict,
        MemberJudgement::Needs(atom) => Judgement::Needs(atom),
    }
}

/// The definition that holds, by its number among the target's, as `winner` tells it, where this is live of the target
/// there. It costs the guards of what is live.
pub fn live_winner(table: &Table, target: u32, region: &Region, live: &LiveGroups) -> u32
    requires target { target < length table.now.targets }
    requires dims { region.now.dims ≡ dims_of table.now.terms }
    requires live { IfSome (slice_get table.now.targets target)
        (λ t. IsLiveOf t (answers_in table.now.atoms region.now) live.now) }
    requires holds { IfSome (slice_get table.now.targets target) (λ t. (d : ℕ)
        × (judged_in table.now.atoms region.now t ≡ Held d)) }
    ensures { IfSome (slice_get table.now.targets target) (λ t. judged_in table.now.atoms region.now t ≡ Held result) }
{
    match living(table, target, region, live) {
        MemberJudgement::Holds(number) => number,
        _ => unreachable!(),
    }
}
