// What is said of the definitions of a target.
ghost use Rattle.std.specs.Prelude.{◌≡◌, ◌<◌, [], true, IfOk, length};
ghost use Rattle.cat_guard.specs.Trees.{tree_of};
ghost use Rattle.cat_guard.specs.Valuations.{dims_of};
ghost use Rattle.cat_search.specs.Searched.{roomy};
ghost use Rattle.cat_cert.specs.Uncovered.{everything};
ghost use Rattle.cat_walk.specs.Walkable.{IsWalkable};
ghost use Rattle.cat_dead_report.specs.DeadReports.{IsSaidOf};
ghost use Rattle.cat_dead.specs.Leaves.{leaves_judged};
ghost use Rattle.cat_dead_report.specs.inside.Faultless.{IsCoveredByEach};
ghost use Rattle.cat_dead_report.specs.inside.Scenes.{IsScene};
ghost use Rattle.cat_dead_report.specs.inside.Searches as words;
ghost use Rattle.cat_dead_report.specs.inside.Tries as tries;

use crate::found::{Known, known_of};
use crate::line::{DeadLine, DeadLines, TargetLines};
use crate::places::numbered_places;
use crate::scene::TargetScene;
use cat_audit::tables_admit_something;
use cat_audit_sound::inputs_of_valuations_are_well_typed;
use cat_dead::{
    JudgedLeaves, judged_leaves, what_is_never_held_never_decides, what_wins_nowhere_is_never_held,
};
use cat_guard::{CaseTree, closed_trees_cover_each_valuation, whole_region};
use cat_pool::Pool;
use cat_pos::List;
use cat_region::{Region, points_are_admitted};
use cat_search::{
    Search, leaves_are_where_their_ways_lead, search_in, searched_trees_ask_atoms_of_the_table,
};
use std::alloc::{AllocError, Global};

/// The line of what is known at last.
fn last_line(known: Known, whole: bool) -> DeadLine
    ensures { result ≡ tries.last_line whole known.line }
{
    let Known {
        line,
        on_default: _,
    } = known;
    if let Some(line) = line {
        return line;
    }
    if whole {
        DeadLine::Never
    } else {
        DeadLine::Budget
    }
}

/// The lines of all places.
fn last_lines(alloc: Global, known: Vec<Known>, whole: bool) -> Result<DeadLines, AllocError>
    ensures { IfOk result (λ lines. lines ≡ tries.last_lines whole known.items) }
{
    let mut lines = List::new(alloc);
    for place in known {
        lines.push(last_line(place, whole))?;
    }
    Ok(lines)
}

/// The tree that a search made, whether nothing of it is left to explore, and whether then no leaf is bad.
fn tree_in(search: Search) -> (CaseTree, bool, bool)
    ensures tree { result.0 ≡ words.tree_in search }
    ensures whole { result.1 ≡ words.is_closed search }
    ensures covered { result.2 ≡ words.is_covered search }
{
    match search {
        Search::Closed { tree, bad } => (tree, true, bad.is_empty()),
        Search::Spent { tree, bad: _ } => (tree, false, false),
    }
}

/// How a target is judged at the leaves of a tree, from a region on that admits every valuation and has room for its
/// splits. The region is left as it was.
fn leaves_from(
    here: &TargetScene,
    tree: &CaseTree,
    region: &mut Region,
) -> Result<JudgedLeaves, AllocError>
    requires scene { IsScene here.now }
    requires whole { region.old.dims ≡ dims_of here.now.table.now.terms }
    requires none { region.old.narrowings ≡ [] }
    requires tree { IsWalkable (length here.now.table.now.atoms) region.old.room (tree_of tree.now.nodes) }
    ensures judged { IfOk result (λ leaves. leaves ≡ leaves_judged here.now.table.now.atoms here.now.target.now
        (everything here.now.table.now.terms) tree.now.nodes) }
    ensures region { region.new ≡ region.old }
{
    judged_leaves(
        here.alloc,
        here.table,
        here.number,
        tree.nodes.as_slice(),
        region,
    )
}

/// The same by the region that a search ended in, where that has the room.
fn leaves_of(
    here: &TargetScene,
    tree: &CaseTree,
    region: &mut Region,
) -> Result<JudgedLeaves, AllocError>
    requires scene { IsScene here.now }
    requires whole { region.old ≡ roomy here.now.table.now.terms here.now.table.now.atoms }
    requires tree { IsWalkable (length here.now.table.now.atoms) tree.now.depth (tree_of tree.now.nodes) }
    ensures judged { IfOk result (λ leaves. leaves ≡ leaves_judged here.now.table.now.atoms here.now.target.now
        (everything here.now.table.now.terms) tree.now.nodes) }
    ensures region { region.new ≡ region.old }
{
    if tree.depth <= region.room() {
        return leaves_from(here, tree, region);
    }
    let mut deep = whole_region(here.alloc, here.table, tree.depth)?;
    leaves_from(here, tree, &mut deep)
}

/// What is said of the definitions of a target by a tree of it.
fn lines_by(
    here: &TargetScene,
    pool: &mut Pool,
    budget: u64,
    tree: CaseTree,
    whole: bool,
    region: &mut Region,
) -> Result<TargetLines, AllocError>
    requires scene { IsScene here.now }
    requires region { region.old ≡ roomy here.now.table.now.terms here.now.table.now.atoms }
    requires searched { words.IsSearchedBy here.now.table.now here.now.target.now budget tree whole }
    ensures said { IfOk result (IsSaidOf here.now.program.now here.now.table.now budget here.now.target.now) }
    ensures region { region.new ≡ region.old }
{
    leaves_are_where_their_ways_lead();
    searched_trees_ask_atoms_of_the_table(here.table);
    points_are_admitted();
    inputs_of_valuations_are_well_typed(here.program);
    what_wins_nowhere_is_never_held(here.table);
    what_is_never_held_never_decides(here.program, here.table);
    let leaves = leaves_of(here, &tree, region)?;
    let defs = here.target.defs.as_slice();
    let (places, count) = numbered_places(here.alloc, defs)?;
    let nodes = tree.nodes.as_slice();
    let leaves = leaves.as_slice();
    let numbers = places.as_slice();
    let known = known_of(here, pool, nodes, leaves, numbers, count)?;
    let lines = last_lines(here.alloc, known, whole)?;
    Ok(TargetLines {
        places,
        lines,
        tree,
        whole,
    })
}

/// Searches for the leaves of a target, of which it makes at most `budget`, and runs the scope on the inputs of leaves
/// in which definitions win, for each place of definitions up to the first whose run has it as a decider: those that
/// constrain inputs alone first, in preorder. It gives the region back that it began in, and tells whether the search
/// shows that each valuation covers the target.
pub(crate) fn target_lines(
    here: &TargetScene,
    pool: &mut Pool,
    budget: u64,
    whole: Region,
) -> Result<(TargetLines, Region, bool), AllocError>
    requires scene { IsScene here.now }
    requires budget { 0 < budget }
    requires whole { whole ≡ roomy here.now.table.now.terms here.now.table.now.atoms }
    ensures said { IfOk result (λ made.
        IsSaidOf here.now.program.now here.now.table.now budget here.now.target.now made.0) }
    ensures back { IfOk result (λ made. made.1 ≡ whole) }
    ensures covered { IfOk result (λ made. made.2 ≡ true
        → IsCoveredByEach here.now.table.now here.now.target.now) }
{
    tables_admit_something(here.program);
    closed_trees_cover_each_valuation();
    let (search, mut region) = search_in(here.alloc, here.table, here.number, budget, whole)?;
    let (tree, explored, covered) = tree_in(search);
    let found = lines_by(here, pool, budget, tree, explored, &mut region)?;
    Ok((found, region, covered))
}
