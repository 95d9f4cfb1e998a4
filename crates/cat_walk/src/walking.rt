// The walk through a tree.
ghost use Rattle.std.specs.Prelude.{◌≡◌, ◌<◌, true, List, IfOk, IfErr, OnOk, IfSome, length, slice_get};
ghost use Rattle.cat_guard.specs.declared.table.Atom.{Atom as AtomSeen};
ghost use Rattle.cat_guard.specs.declared.table.TableTarget.{TableTarget as TargetSeen};
ghost use Rattle.cat_guard.specs.Levels.{AreLiveTo};
ghost use Rattle.cat_guard.specs.Trees.{IsCitedClosed, expanded};
ghost use Rattle.cat_guard.specs.Valuations.{dims_of};
ghost use Rattle.cat_region.specs.declared.narrowing.Narrowing.{Narrowing as Narrowed};
ghost use Rattle.cat_region.specs.Regions.{Constraints, IsInhabited, IsRegion};
ghost use Rattle.cat_region.specs.Decided.{admits_none};
ghost use Rattle.cat_region.specs.Sides.{IsAt, Turns};
ghost use Rattle.cat_walk.specs.Coverage.{is_uncovered, IsWalked};
ghost use Rattle.cat_walk.specs.Walkable.{IsWalkable};
ghost use Rattle.cat_walk.specs.LeafPlaces.{NamesLeaf};

use crate::laws::covered_trees_are_closed;
use crate::meeting::{Met, enter, next, start};
use crate::refusal::WalkRefusal;
use cat_guard::{Atom, CitedTree, Judgement, Levels, Table, answer_atom, judge_live};
use cat_region::{Region, to_false_side, undo_all};
use std::alloc::{AllocError, Global};

/// Whether a region admits something, and the target isn't judged covered in it, by what is still live of what is kept
/// on the way to it.
fn is_uncovered(
    alloc: Global,
    table: &Table,
    target: u32,
    region: &Region,
    levels: &Levels,
) -> Result<bool, AllocError>
    requires target { target < length table.now.targets }
    requires dims { region.now.dims ≡ dims_of table.now.terms }
    requires live { IfSome (slice_get table.now.targets target)
        (λ t. AreLiveTo table.now.atoms t region.now levels.now) }
    ensures { IfSome (slice_get table.now.targets target)
        (λ t. IfOk result (λ uncovered. uncovered ≡ is_uncovered table.now.atoms t region.now)) }
{
    if region.is_empty() {
        return Ok(false);
    }
    let live = levels.live_in(alloc, table, target, region)?;
    match judge_live(table, target, region, &live) {
        Judgement::Holds => Ok(false),
        Judgement::Empty => Ok(!table.targets.at(target as usize).may_be_empty),
        Judgement::Conflict | Judgement::Needs(_) => Ok(true),
    }
}

/// Whether a region admits something on each side of a split.
fn is_parted(table: &Table, region: &Region, atom: usize) -> bool
    requires atom { atom < length table.now.atoms }
    requires dims { region.now.dims ≡ dims_of table.now.terms }
    ensures { result ≡ true → IsInhabited region.now }
{
    if region.is_empty() {
        return false;
    }
    let Atom { term, cut } = *table.atoms.at(atom);
    region.decided(term, &cut).is_none()
}

/// Keeps what is live in a region before a split, if the split parts it and little is live.
pub fn keep_live(
    alloc: Global,
    table: &Table,
    target: u32,
    region: &Region,
    atom: usize,
    levels: &mut Levels,
) -> Result<(), AllocError>
    requires target { target < length table.now.targets }
    requires atom { atom < length table.now.atoms }
    requires dims { region.now.dims ≡ dims_of table.now.terms }
    requires live { IfSome (slice_get table.now.targets target)
        (λ t. AreLiveTo table.now.atoms t region.now levels.old) }
    ensures { OnOk result (IfSome (slice_get table.now.targets target)
        (λ t. AreLiveTo table.now.atoms t region.now levels.new)) }
{
    if !is_parted(table, region, atom) {
        return Ok(());
    }
    let live = levels.live_in(alloc, table, target, region)?;
    levels.keep(region, live)
}

/// Whether a region admits nothing.
fn is_empty(region: &Region) -> bool
    ensures value { result ≡ admits_none region.now }
    ensures sound { IsRegion region.now }
{
    // What is so of its narrowings.
    let _room = region.room();
    region.is_empty()
}

/// Goes back to the last split whose true side a region is on, and over to its false side, where there is one. It drops
/// what was live further down.
pub fn to_next_side(region: &mut Region, room: usize, levels: &mut Levels) -> bool
    ensures turns { (base : Constraints) (path : List Narrowed) → base.room ≡ room → IsAt base path region.old
        → Turns base path result region.new }
    ensures live { (base : Constraints) (path : List Narrowed) (atoms : List AtomSeen) (t : TargetSeen)
        → base.room ≡ room → IsAt base path region.old → result ≡ true → AreLiveTo atoms t region.old levels.old
        → AreLiveTo atoms t region.new levels.new }
    ensures dims { region.new.dims ≡ region.old.dims }
{
    if !to_false_side(region, room) {
        return false;
    }
    levels.back_to(region);
    true
}

/// Goes from node to node, but not into the named trees that are cited in a region that admits nothing, and leaves the
/// region where it ends.
fn walked(
    alloc: Global,
    table: &Table,
    target: u32,
    tree: &CitedTree,
    region: &mut Region,
) -> Result<(), WalkRefusal>
    requires target { target < length table.now.targets }
    requires dims { region.old.dims ≡ dims_of table.now.terms }
    requires tree { IsWalkable (length table.now.atoms) region.old.room (expanded tree.now) }
    ensures first { IfSome (slice_get table.now.targets target) (λ t. IsWalked table.now.atoms t region.old tree.now
        result) }
    ensures leaf { IfErr result (NamesLeaf tree.now) }
    ensures at { (path : List Narrowed) × IsAt region.old path region.new }
{
    let room = region.room();
    let mut places = start(alloc, tree)?;
    let mut levels = Levels::new(alloc, table, target)?;
    while let Some(met) = next(tree, &mut places)? {
        match met {
            Met::Split(atom) => {
                keep_live(alloc, table, target, region, atom, &mut levels)?;
                answer_atom(table, region, atom, true);
            }
            Met::Leaf(place) => {
                let uncovered = is_uncovered(alloc, table, target, region, &levels)?;
                if uncovered {
                    return Err(WalkRefusal::NotCovered(place));
                }
                if !to_next_side(region, room, &mut levels) {
                    return Ok(());
                }
            }
            Met::Cite(name) => {
                if !is_empty(region) {
                    enter(tree, &mut places, name)?;
                    continue;
                }
                if !to_next_side(region, room, &mut levels) {
                    return Ok(());
                }
            }
            Met::End => {}
        }
    }
    Ok(())
}

/// Whether a tree is closed in a region, by the first leaf that isn't covered, in the preorder of the tree with its
/// citations replaced. It costs a step for each node of that tree and for each citation, but for named trees that are
/// cited where nothing is admitted; and at each leaf whose region admits something, and each split that parts one, a
/// look at the guards of what may be live there, which is at most about twice what is. Of memory it takes what tells
/// where it stands in each list that it is in, and what is live.
pub fn walk(
    alloc: Global,
    table: &Table,
    target: u32,
    tree: &CitedTree,
    region: &mut Region,
) -> Result<(), WalkRefusal>
    requires target { target < length table.now.targets }
    requires dims { region.old.dims ≡ dims_of table.now.terms }
    requires tree { IsWalkable (length table.now.atoms) region.old.room (expanded tree.now) }
    ensures closed { IfSome (slice_get table.now.targets target) (λ t. IfOk result (λ u.
        IsCitedClosed table.now.atoms t region.old tree.now)) }
    ensures first { IfSome (slice_get table.now.targets target) (λ t. IsWalked table.now.atoms t region.old tree.now
        result) }
    ensures leaf { IfErr result (NamesLeaf tree.now) }
    ensures region { region.new ≡ region.old }
{
    let room = region.room();
    covered_trees_are_closed(table);
    let found = walked(alloc, table, target, tree, region);
    undo_all(region, room);
    found
}
