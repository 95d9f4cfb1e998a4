// The search.
ghost use Rattle.std.specs.Prelude.{◌≡◌, ◌<◌, [], IfOk, IfSome, length, slice_get};
ghost use Rattle.cat_region.specs.Regions.{IsInhabited};
ghost use Rattle.cat_search.specs.Cells.{IsSpentWithin};
ghost use Rattle.cat_search.specs.Searched.{everything, roomy, IsSearchOf, IsClosedSearch};

use crate::asked::atoms_in_order;
use crate::found::Search;
use crate::laws::{searched_trees_stay_within_the_cells, trees_without_bad_leaves_are_closed};
use crate::searching::Searching;
use cat_guard::{Levels, Table, TreeNode, empty_regions_close_each_tree, whole_region};
use cat_region::Region;
use std::alloc::{AllocError, Global};

/// Looks for the leaves of a target, and gives the region back that it began in. It costs nothing for what the target
/// doesn't ask.
pub fn search_in(
    alloc: Global,
    table: &Table,
    target: u32,
    budget: u64,
    whole: Region,
) -> Result<(Search, Region), AllocError>
    requires target { target < length table.now.targets }
    requires budget { 0 < budget }
    requires whole { whole ≡ roomy table.now.terms table.now.atoms }
    ensures found { IsInhabited (everything table.now.terms) → IfSome (slice_get table.now.targets target)
        (λ t. IfOk result (λ made. IsSearchOf table.now.terms table.now.atoms t budget made.0)) }
    ensures closed { IfSome (slice_get table.now.targets target) (λ t. IfOk result
        (λ made. IsClosedSearch table.now.terms table.now.atoms t made.0)) }
    ensures spent { IfSome (slice_get table.now.targets target) (λ t. IfOk result
        (λ made. IsSpentWithin table.now.terms table.now.atoms t budget made.0)) }
    ensures back { IfOk result (λ made. made.1 ≡ whole) }
{
    trees_without_bad_leaves_are_closed(table);
    searched_trees_stay_within_the_cells(table);
    empty_regions_close_each_tree();
    let mut searching = Searching::new(alloc, whole);
    if searching.region.is_empty() {
        searching.nodes.push(TreeNode::Leaf)?;
        let (tree, bad, whole) = searching.into_parts();
        return Ok((Search::Closed { tree, bad }, whole));
    }
    let order = atoms_in_order(alloc, table, target)?;
    let mut levels = Levels::new(alloc, table, target)?;
    let room = table.atoms.len();
    for _ in 0..budget {
        searching.to_leaf(alloc, table, target, order.as_slice(), &mut levels)?;
        if !searching.turn(room) {
            let (tree, bad, whole) = searching.into_parts();
            return Ok((Search::Closed { tree, bad }, whole));
        }
        levels.back_to(&searching.region);
    }
    searching.rests(table, target)?;
    let (tree, bad, whole) = searching.into_parts();
    Ok((Search::Spent { tree, bad }, whole))
}

/// Looks for the leaves of a target.
pub fn search(alloc: Global, table: &Table, target: u32, budget: u64) -> Result<Search, AllocError>
    requires target { target < length table.now.targets }
    requires budget { 0 < budget }
    ensures found { IsInhabited (everything table.now.terms) → IfSome (slice_get table.now.targets target)
        (λ t. IfOk result (IsSearchOf table.now.terms table.now.atoms t budget)) }
    ensures closed { IfSome (slice_get table.now.targets target) (λ t. IfOk result
        (IsClosedSearch table.now.terms table.now.atoms t)) }
    ensures spent { IfSome (slice_get table.now.targets target) (λ t. IfOk result
        (IsSpentWithin table.now.terms table.now.atoms t budget)) }
{
    let whole = whole_region(alloc, table, table.atoms.len())?;
    let (found, _) = search_in(alloc, table, target, budget, whole)?;
    Ok(found)
}
