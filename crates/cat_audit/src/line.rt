// The line of a target.
ghost use Rattle.std.specs.Prelude.{◌≡◌, ◌<◌, IfOk, IfSome, length, slice_get};
ghost use Rattle.cat_guard.specs.Tables.{TablesScope};
ghost use Rattle.cat_machine.specs.ForPrograms.{IsCodeFor};
ghost use Rattle.cat_search.specs.Searched.{roomy};
ghost use Rattle.cat_audit.specs.Causes.{HasCause};
ghost use Rattle.cat_audit.specs.Lines.{IsLineOf, line_by, tree_in};
ghost use Rattle.cat_audit.specs.inside.Tried.{leaves_bad, line_or};

use crate::finding::{Finding, Line, TargetLine};
use crate::finding_laws::tables_admit_something;
use crate::tried::tried;
use cat_audit_sound::inputs_of_valuations_are_well_typed;
use cat_code::Code;
use cat_guard::{Table, TreeNode};
use cat_pool::Pool;
use cat_region::{Region, points_are_admitted};
use cat_scope::Program;
use cat_search::{
    BadLeaf, Search, leaves_are_where_their_ways_lead, search_in,
    searched_trees_ask_atoms_of_the_table,
};
use std::alloc::{AllocError, Global};

/// The nodes of the tree that a search made.
fn nodes_of(search: &Search) -> &[TreeNode]
    ensures { result.now ≡ (tree_in search.now).nodes }
{
    match search {
        Search::Closed { tree, bad: _ } => tree.nodes.as_slice(),
        Search::Spent { tree, bad: _ } => tree.nodes.as_slice(),
    }
}

/// The bad leaves of that tree.
fn bad_of(search: &Search) -> &[BadLeaf]
    ensures { result.now ≡ leaves_bad search.now }
{
    match search {
        Search::Closed { tree: _, bad } => bad.as_slice(),
        Search::Spent { tree: _, bad } => bad.as_slice(),
    }
}

/// The line of a finding, or another one where there is none.
fn line_or(found: Option<Finding>, good: Line) -> Line
    ensures { result ≡ line_or found good }
{
    match found {
        Some(found) => Line::Bad(found),
        None => good,
    }
}

/// The line by the finding that counts, with the tree.
fn line_by(found: Option<Finding>, search: Search) -> TargetLine
    ensures line { result.line ≡ line_by found search }
    ensures tree { result.tree ≡ tree_in search }
{
    match search {
        Search::Closed { tree, bad: _ } => TargetLine {
            line: line_or(found, Line::Covered),
            tree,
        },
        Search::Spent { tree, bad: _ } => TargetLine {
            line: line_or(found, Line::Budget),
            tree,
        },
    }
}

/// Searches for the leaves of a target, of which it makes at most `budget`, and runs the scope on the input of each
/// that isn't covered, up to the first whose run shows a conflict or a gap. It gives the region back that it began in.
pub fn target_line(
    alloc: Global,
    program: &Program,
    code: &Code,
    pool: &mut Pool,
    table: &Table,
    target: u32,
    budget: u64,
    whole: Region,
) -> Result<(TargetLine, Region), AllocError>
    requires tabled { TablesScope program.now table.now.scope table.now }
    requires code { ∥ IsCodeFor program.now code.now ∥₁ }
    requires target { target < length table.now.targets }
    requires budget { 0 < budget }
    requires whole { whole ≡ roomy table.now.terms table.now.atoms }
    ensures line { IfSome (slice_get table.now.targets target)
        (λ t. IfOk result (λ made. IsLineOf program.now table.now t budget made.0)) }
    ensures cause { IfSome (slice_get table.now.targets target)
        (λ t. IfOk result (λ made. HasCause program.now table.now t budget made.0.tree.nodes made.0.line)) }
    ensures back { IfOk result (λ made. made.1 ≡ whole) }
{
    tables_admit_something(program);
    inputs_of_valuations_are_well_typed(program);
    points_are_admitted();
    leaves_are_where_their_ways_lead();
    searched_trees_ask_atoms_of_the_table(table);
    let (search, whole) = search_in(alloc, table, target, budget, whole)?;
    let nodes = nodes_of(&search);
    let bad = bad_of(&search);
    let found = tried(alloc, program, code, pool, table, target, nodes, bad)?;
    Ok((line_by(found, search), whole))
}
