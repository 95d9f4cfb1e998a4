// How a target is judged in a region.
ghost use Rattle.std.specs.Prelude.{◌≡◌, ◌<◌, ℕ, true, All, IsTrue, IfSome, length, map, slice_get};
ghost use Rattle.cat_scope.specs.Chains.{is_within};
ghost use Rattle.cat_guard.specs.Judged.{answers_in, judged_in};
ghost use Rattle.cat_guard.specs.Soundness.{above, target_is_sound};
ghost use Rattle.cat_guard.specs.Valuations.{dims_of};
ghost use Rattle.cat_guard.specs.Verdicts.{Holds as Held, listed, def_verdict, group_verdict, verdict_of};
ghost use Rattle.cat_guard.specs.Judgements.{IsJudgement};
ghost use Rattle.cat_guard.specs.inside.Telling.{are_cuts_of};
ghost use Rattle.cat_guard.specs.inside.Counting.{Passes};
ghost use Rattle.cat_guard.specs.inside.Found.{Finds};

use crate::judgement::Judgement;
use crate::tally::{MemberJudgement, Tally};
use crate::truth::{Truth, is_so, known};
use crate::{Atom, Table, TableTarget};
use cat_region::Region;

/// The most groups of a chain.
pub(crate) const LONGEST_CHAIN: u32 = 256;

/// The definition of that number among the target's.
fn judged_def(region: &Region, atoms: &[Atom], target: &TableTarget, number: u32) -> MemberJudgement
    requires cuts { IsTrue (are_cuts_of region.now.dims atoms.now) }
    requires number { number < length target.now.defs }
    ensures { Finds (answers_in atoms.now region.now) target.now
        (def_verdict (answers_in atoms.now region.now) number (slice_get target.now.defs number)) result }
{
    match known(region, atoms, &target.defs.at(number as usize).guard) {
        Truth::Known(true) => MemberJudgement::Holds(number),
        Truth::Known(false) => MemberJudgement::Empty,
        Truth::Open(atom) => MemberJudgement::Needs(atom),
    }
}

/// Whether a definition changes nothing of a list one of whose members hangs on an atom: it isn't known to hold.
fn is_passed(
    region: &Region,
    atoms: &[Atom],
    target: &TableTarget,
    number: u32,
    tally: Tally,
) -> bool
    requires cuts { IsTrue (are_cuts_of region.now.dims atoms.now) }
    requires number { number < length target.now.defs }
    ensures { IsTrue result → Passes tally
        (def_verdict (answers_in atoms.now region.now) number (slice_get target.now.defs number)) }
{
    match tally.needs {
        None => false,
        Some(_) => !is_so(region, atoms, &target.defs.at(number as usize).guard, true),
    }
}

/// The list of some definitions.
pub(crate) fn judged_defs(
    region: &Region,
    atoms: &[Atom],
    target: &TableTarget,
    numbers: &[u32],
) -> MemberJudgement
    requires cuts { IsTrue (are_cuts_of region.now.dims atoms.now) }
    requires numbers { All (λ n. n < length target.now.defs) numbers.now }
    ensures { Finds (answers_in atoms.now region.now) target.now
        (listed (map (λ d. def_verdict (answers_in atoms.now region.now) d (slice_get target.now.defs d)) numbers.now))
        result }
{
    let mut tally = Tally::new();
    for &number in numbers {
        if is_passed(region, atoms, target, number, tally) {
            continue;
        }
        tally = tally.with_member(judged_def(region, atoms, target, number));
    }
    tally.total()
}

/// A group, as the list of those that except it or, where that is Empty, as that of its own definitions. No chain of
/// groups that begins with it has more than `room`.
#[cycle(group)]
fn judged_group(
    region: &Region,
    atoms: &[Atom],
    target: &TableTarget,
    room: u32,
    number: u32,
) -> MemberJudgement
    requires cuts { IsTrue (are_cuts_of region.now.dims atoms.now) }
    requires sound { IsTrue (target_is_sound (length atoms.now) target.now) }
    requires number { number < length target.now.groups }
    requires short { is_within (above target.now.groups) room number ≡ true }
    ensures { Finds (answers_in atoms.now region.now) target.now
        (group_verdict target.now (answers_in atoms.now region.now) room number) result }
{
    let group = target.groups.at(number as usize);
    match judged_groups(
        region,
        atoms,
        target,
        room - 1,
        group.excepted_by.as_slice(),
    ) {
        MemberJudgement::Empty => judged_defs(region, atoms, target, group.defs.as_slice()),
        other => other,
    }
}

/// The list of some groups.
#[cycle(group)]
fn judged_groups(
    region: &Region,
    atoms: &[Atom],
    target: &TableTarget,
    room: u32,
    numbers: &[u32],
) -> MemberJudgement
    requires cuts { IsTrue (are_cuts_of region.now.dims atoms.now) }
    requires sound { IsTrue (target_is_sound (length atoms.now) target.now) }
    requires numbers { All (λ n. n < length target.now.groups) numbers.now }
    requires short { All (λ n. is_within (above target.now.groups) room n ≡ true) numbers.now }
    ensures { Finds (answers_in atoms.now region.now) target.now
        (listed (map (group_verdict target.now (answers_in atoms.now region.now) room) numbers.now)) result }
{
    let mut tally = Tally::new();
    for &number in numbers {
        tally = tally.with_member(judged_group(region, atoms, target, room, number));
    }
    tally.total()
}

/// The target of that number, as the list of its roots.
fn judged(table: &Table, target: u32, region: &Region) -> MemberJudgement
    requires target { target < length table.now.targets }
    requires dims { region.now.dims ≡ dims_of table.now.terms }
    ensures { IfSome (slice_get table.now.targets target) (λ t. Finds (answers_in table.now.atoms region.now) t
        (judged_in table.now.atoms region.now t) result) }
{
    let atoms = table.atoms.as_slice();
    let target = table.targets.at(target as usize);
    judged_groups(
        region,
        atoms,
        target,
        LONGEST_CHAIN,
        target.roots.as_slice(),
    )
}

/// How a target is judged in a region of the table's dimensions. It costs the guards of the target, each of which it
/// looks at once.
pub fn judge_box(table: &Table, target: u32, region: &Region) -> Judgement
    requires target { target < length table.now.targets }
    requires dims { region.now.dims ≡ dims_of table.now.terms }
    ensures { IfSome (slice_get table.now.targets target) (λ t. IsJudgement (answers_in table.now.atoms region.now) t
        result) }
{
    match judged(table, target, region) {
        MemberJudgement::Holds(_) => Judgement::Holds,
        MemberJudgement::Empty => Judgement::Empty,
        MemberJudgement::Conflict => Judgement::Conflict,
        MemberJudgement::Needs(atom) => Judgement::Needs(atom),
    }
}

/// The definition that holds, by its number among the target's, in a region where one is judged to hold.
pub fn winner(table: &Table, target: u32, region: &Region) -> u32
    requires target { target < length table.now.targets }
    requires dims { region.now.dims ≡ dims_of table.now.terms }
    requires holds { IfSome (slice_get table.now.targets target) (λ t. (d : ℕ)
        × (judged_in table.now.atoms region.now t ≡ Held d)) }
    ensures { IfSome (slice_get table.now.targets target) (λ t. judged_in table.now.atoms region.now t ≡ Held result) }
{
    match judged(table, target, region) {
        MemberJudgement::Holds(number) => number,
        _ => unreachable!(),
    }
}
