// What is found of the definitions of a target where the inputs of leaves are tried.
ghost use Rattle.std.specs.Prelude.{◌≡◌, ◌≤◌, ◌<◌, ℕ, [], false, true, IsTrue, IfOk, OnOk, IfSome, length, slice_get};
ghost use Rattle.std.specs.Prelude.{take};
ghost use Rattle.cat_scope.specs.Names.{AllHave};
ghost use Rattle.cat_search.specs.Ways.{ask_below, way_from};
ghost use Rattle.cat_dead_report.specs.RunLines.{weight, weight_of};
ghost use Rattle.cat_dead_report.specs.inside.Hanging.{hang_somewhere};
ghost use Rattle.cat_dead_report.specs.inside.Knowing as words;
ghost use Rattle.cat_dead_report.specs.inside.Knowing.{AreKnown, Grow, default_weight};
ghost use Rattle.cat_dead_report.specs.inside.Places.{HaveNumbers};
ghost use Rattle.cat_dead_report.specs.inside.Said.{IsWonIn};
ghost use Rattle.cat_dead_report.specs.inside.Scenes.{IsScene};
ghost use Rattle.cat_dead_report.specs.inside.Tries.{HasTried, HasTriedAt};
ghost use Rattle.cat_dead_report.specs.inside.WonLeaves.{AreJudgedLeaves, IsTold, IsToldIf, led, won_by};

use crate::hanging::hang_somewhere;
use crate::line::DeadLine;
use crate::scene::TargetScene;
use crate::tried::leaf_line;
use cat_audit::{go_to, hang_alone};
use cat_dead::{JudgedLeaf, LeafJudgement};
use cat_guard::{Table, TreeNode};
use cat_pool::Pool;
use cat_pos::Pos;
use cat_search::Way;
use std::alloc::{AllocError, Global};

/// What is known so far of the definitions that stand at one place.
#[derive(Drop)]
pub(crate) struct Known {
    pub(crate) line: Option<DeadLine>,
    /// Whether one of them won in a leaf that constrains no input: all such leaves have one input.
    pub(crate) on_default: bool,
}

/// A definition that wins: the number of its place, and its position.
#[derive(Clone, Copy)]
pub(crate) struct Won {
    pub(crate) place: usize,
    pub(crate) pos: Pos,
}

/// How much a line counts beside others.
fn weight(line: &DeadLine) -> u8
    ensures { result ≡ weight line.now }
{
    match line {
        DeadLine::Decides(_) => 3,
        DeadLine::Masked(_, _) => 2,
        DeadLine::Derived(_, _, _) => 1,
        DeadLine::Budget | DeadLine::Never => 0,
    }
}

/// Whether a line counts more than the one so far.
fn counts_more(best: &Option<DeadLine>, next: &DeadLine) -> bool
    ensures { result ≡ words.counts_more best.now next.now }
{
    match best {
        None => true,
        Some(best) => weight(best) < weight(next),
    }
}

/// Whether no further run can change what is known: a decider is found, or a function has no deciders.
fn is_final(function: bool, line: &Option<DeadLine>) -> bool
    ensures { result ≡ words.is_final function line.now }
{
    match line {
        None => false,
        Some(DeadLine::Decides(_)) => true,
        Some(_) => function,
    }
}

/// Whether no further run can change what is known of the place of that number.
fn is_final_at(function: bool, known: &Vec<Known>, place: usize) -> bool
    ensures { result ≡ words.is_final_at function (slice_get known.now.items place) }
{
    match known.get(place) {
        None => false,
        Some(known) => is_final(function, &known.line),
    }
}

/// The definition that wins at a leaf, where one does.
fn won_by(here: &TargetScene, numbers: &[usize], leaf: &JudgedLeaf) -> Option<Won>
    ensures { result ≡ won_by numbers.now here.now.target.now.defs leaf.now.judged }
{
    let LeafJudgement::Wins(winner) = leaf.judged else {
        return None;
    };
    let place = *numbers.get(winner as usize)?;
    let pos = here.target.defs.get(winner as usize)?.pos;
    Some(Won { place, pos })
}

/// Keeps what a run says where it counts more than what is known.
fn keep(known: &mut Known, next: DeadLine)
    ensures line { known.new.line ≡ words.kept known.old.line next }
    ensures default { known.new.on_default ≡ known.old.on_default }
{
    if !counts_more(&known.line, &next) {
        return;
    }
    known.line = Some(next);
}

/// Tries the input to which a way leads, where that may say more of the definition that wins there than what is known.
fn try_leaf(
    here: &TargetScene,
    pool: &mut Pool,
    way: &Way,
    pos: Pos,
    known: &mut Known,
) -> Result<(), AllocError>
    requires scene { IsScene here.now }
    requires asked { IsTrue (ask_below (length here.now.table.now.atoms) way.now) }
    requires won { IsWonIn here.now.table.now here.now.target.now pos (led here.now.table.now way.now) }
    requires default { known.old.on_default ≡ true
        → default_weight here.now.program.now here.now.table.now here.now.target.now pos ≤ weight_of known.old.line }
    ensures { OnOk result (HasTried here.now.program.now here.now.table.now here.now.target.now pos
        (led here.now.table.now way.now) known.old known.new) }
{
    let hangs = hang_alone(here.table, way.answers());
    let is_run = known.on_default;
    if hangs && is_run {
        return Ok(());
    }
    let region = way.region(here.alloc, here.table)?;
    let next = leaf_line(here, pool, pos, region)?;
    known.on_default |= hangs;
    keep(known, next);
    Ok(())
}

/// The same for the place of that number.
fn try_place(
    here: &TargetScene,
    pool: &mut Pool,
    way: &Way,
    won: Won,
    known: &mut Vec<Known>,
) -> Result<(), AllocError>
    requires scene { IsScene here.now }
    requires asked { IsTrue (ask_below (length here.now.table.now.atoms) way.now) }
    requires won { IsWonIn here.now.table.now here.now.target.now won.pos (led here.now.table.now way.now) }
    requires place { won.place < length known.old.items }
    requires default { IfSome (slice_get known.old.items won.place)
        (λ k. k.on_default ≡ true → default_weight here.now.program.now here.now.table.now here.now.target.now won.pos
        ≤ weight_of k.line) }
    ensures { OnOk result (HasTriedAt here.now.program.now here.now.table.now here.now.target.now won
        (led here.now.table.now way.now) known.old.items known.new.items) }
{
    try_leaf(here, pool, way, won.pos, &mut known[won.place])
}

/// Whether a way leads to a leaf of one of the two passes: that through the leaves that hang on what a run computes, or
/// that through the others.
fn is_in_pass(table: &Table, way: &Way, derived: bool) -> bool
    ensures { result ≡ false → hang_somewhere table.now way.now ≡ derived → ⊥ }
{
    hang_somewhere(table, way.answers()) == derived
}

/// Goes once through the leaves of a tree that hang on what a run computes, or through those that don't, and tries each
/// in which a definition wins whose line isn't final.
fn try_leaves(
    here: &TargetScene,
    pool: &mut Pool,
    nodes: &[TreeNode],
    leaves: &[JudgedLeaf],
    numbers: &[usize],
    known: &mut Vec<Known>,
    derived: bool,
) -> Result<(), AllocError>
    requires scene { IsScene here.now }
    requires asked { (n : ℕ)
        → IsTrue (ask_below (length here.now.table.now.atoms) (way_from [] (take n nodes.now))) }
    requires leaves { AreJudgedLeaves here.now.table.now here.now.target.now nodes.now 0 leaves.now }
    requires known { AreKnown here.now.program.now here.now.table.now here.now.target.now nodes.now numbers.now
        known.old.items }
    ensures known { OnOk result (AreKnown here.now.program.now here.now.table.now here.now.target.now nodes.now
        numbers.now known.new.items) }
    ensures grown { OnOk result (Grow known.old.items known.new.items) }
    ensures told { OnOk result (AllHave (IsToldIf here.now.program.now here.now.table.now here.now.target.now nodes.now
        derived numbers.now known.new.items) leaves.now) }
{
    let mut way = Way::new(here.alloc);
    let mut at = 0;
    for leaf in leaves {
        let Some(won) = won_by(here, numbers, leaf) else {
            continue;
        };
        if is_final_at(here.target.function, known, won.place) {
            continue;
        }
        go_to(&mut way, nodes, at, leaf.node)?;
        at = leaf.node;
        if !is_in_pass(here.table, &way, derived) {
            continue;
        }
        try_place(here, pool, &way, won, known)?;
    }
    Ok(())
}

/// Nothing is known of so many places.
fn nothing_known(alloc: Global, count: usize) -> Result<Vec<Known>, AllocError>
    ensures { IfOk result (λ known. known.items ≡ words.nothing_known count) }
{
    let mut known = Vec::with_capacity(alloc, count)?;
    for _ in 0..count {
        known.push(Known {
            line: None,
            on_default: false,
        })?;
    }
    Ok(known)
}

/// What runs on the inputs of leaves say of the definitions that win there, by places of these, of which there are so
/// many: for each up to the first run in which one of them decides, and those on leaves that constrain inputs alone go
/// first.
pub(crate) fn known_of(
    here: &TargetScene,
    pool: &mut Pool,
    nodes: &[TreeNode],
    leaves: &[JudgedLeaf],
    numbers: &[usize],
    count: usize,
) -> Result<Vec<Known>, AllocError>
    requires scene { IsScene here.now }
    requires asked { (n : ℕ)
        → IsTrue (ask_below (length here.now.table.now.atoms) (way_from [] (take n nodes.now))) }
    requires leaves { AreJudgedLeaves here.now.table.now here.now.target.now nodes.now 0 leaves.now }
    requires numbers { HaveNumbers here.now.target.now.defs numbers.now count }
    ensures known { IfOk result (λ known. AreKnown here.now.program.now here.now.table.now here.now.target.now
        nodes.now numbers.now known.items) }
    ensures told { IfOk result (λ known. AllHave (IsTold here.now.program.now here.now.table.now here.now.target.now
        nodes.now numbers.now known.items) leaves.now) }
{
    let mut known = nothing_known(here.alloc, count)?;
    try_leaves(here, pool, nodes, leaves, numbers, &mut known, false)?;
    try_leaves(here, pool, nodes, leaves, numbers, &mut known, true)?;
    Ok(known)
}
