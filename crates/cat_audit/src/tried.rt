// The bad leaves of a tree are tried.
ghost use Rattle.std.specs.Prelude.{◌≡◌, ◌<◌, ◌≤◌, ℕ, [], None, IsTrue, IfOk, OnOk, IfSome, length, map, slice_get};
ghost use Rattle.std.specs.Prelude.{take};
ghost use Rattle.std.specs.List.{slice_range};
ghost use Rattle.cat_guard.specs.Tables.{TablesScope};
ghost use Rattle.cat_machine.specs.ForPrograms.{IsCodeFor};
ghost use Rattle.cat_search.specs.Ways.{ask_below, way_from};
ghost use Rattle.cat_audit.specs.Lines.{is_found, is_masked, findings, counting};
ghost use Rattle.cat_audit.specs.inside.Tried.{kept, region_at, AreBadFrom};

use crate::finding::Finding;
use crate::hanging::hang_alone;
use crate::leaf::finding_in;
use cat_code::Code;
use cat_guard::{Table, TreeNode};
use cat_pool::Pool;
use cat_scope::Program;
use cat_search::{BadLeaf, Way};
use std::alloc::{AllocError, Global};

fn is_found(finding: &Finding) -> bool
    ensures { result ≡ is_found finding.now }
{
    matches!(finding, Finding::Found(_, _))
}

fn is_masked(finding: &Finding) -> bool
    ensures { result ≡ is_masked finding.now }
{
    matches!(finding, Finding::Masked(_, _, _))
}

/// The one that counts of the best finding so far and the next one, where neither is Found.
fn kept(best: Option<Finding>, next: Finding) -> Option<Finding>
    ensures { result ≡ kept best next }
{
    let Some(best) = best else {
        return Some(next);
    };
    if is_masked(&best) || !is_masked(&next) {
        Some(best)
    } else {
        Some(next)
    }
}

/// Goes on from a node to a later one.
pub fn go_to(way: &mut Way, nodes: &[TreeNode], from: usize, to: usize) -> Result<(), AllocError>
    requires order { from ≤ to }
    requires within { to ≤ length nodes.now }
    ensures { OnOk result (way.new ≡ way_from way.old (slice_range nodes.now from to)) }
{
    way.go_on(&nodes[from..to])
}

/// The finding that counts of those of the bad leaves of a tree, which it goes through once. It ends at the first one
/// that is Found. Of the leaves that hang on what a run computes alone, which all have one input, it runs the first.
pub(crate) fn tried(
    alloc: Global,
    program: &Program,
    code: &Code,
    pool: &mut Pool,
    table: &Table,
    target: u32,
    nodes: &[TreeNode],
    bad: &[BadLeaf],
) -> Result<Option<Finding>, AllocError>
    requires tabled { TablesScope program.now table.now.scope table.now }
    requires code { ∥ IsCodeFor program.now code.now ∥₁ }
    requires target { target < length table.now.targets }
    requires asked { (n : ℕ) → IsTrue (ask_below (length table.now.atoms) (way_from [] (take n nodes.now))) }
    requires bad { IfSome (slice_get table.now.targets target) (λ t. AreBadFrom table.now t nodes.now 0 bad.now) }
    ensures counts { IfSome (slice_get table.now.targets target) (λ t. IfOk result (λ best. best
        ≡ counting (findings program.now table.now t (map (region_at table.now nodes.now) bad.now)))) }
    ensures none { IfOk result (λ best. best ≡ None → bad.now ≡ []) }
{
    let mut way = Way::new(alloc);
    let mut at = 0;
    let mut best = None;
    let mut default_is_run = false;
    for &BadLeaf { leaf, flaw: _ } in bad {
        go_to(&mut way, nodes, at, leaf)?;
        at = leaf;
        let hangs = hang_alone(table, way.answers());
        if hangs && default_is_run {
            continue;
        }
        default_is_run |= hangs;
        let region = way.region(alloc, table)?;
        let next = finding_in(alloc, program, code, pool, table, target, region)?;
        if is_found(&next) {
            return Ok(Some(next));
        }
        best = kept(best, next);
    }
    Ok(best)
}
