// What a search makes of a region.
ghost use Rattle.std.specs.Prelude.{◌≡◌, ◌<◌, Some, None, All, IfSome, if◌then◌else◌, length, slice_get};
ghost use Rattle.cat_scope.specs.Names.{IsOneOf};
ghost use Rattle.cat_guard.specs.Valuations.{dims_of};
ghost use Rattle.cat_guard.specs.Judged.{answers_in};
ghost use Rattle.cat_guard.specs.Judgements.{atoms_in};
ghost use Rattle.cat_guard.specs.Live.{IsLiveOf};
ghost use Rattle.cat_search.specs.declared.bad.Flaw.TheVariants.{NoValue as NoValueSeen};
ghost use Rattle.cat_search.specs.inside.Underway.{IsMadeOf};

use crate::bad::Flaw;
use crate::choice::split_atom;
use cat_guard::{Judgement, LiveGroups, Table, judge_live};
use cat_region::Region;

/// A split on the atom of that number, or a leaf, maybe one that isn't covered.
#[derive(Clone, Copy, PartialEq, Eq, Debug)]
pub enum NextNode {
    Split(usize),
    Leaf(Option<Flaw>),
}

/// What is wrong where no definition holds.
fn flaw_of_empty(may_be_empty: bool) -> Option<Flaw>
    ensures { result ≡ (if may_be_empty then None else Some NoValueSeen) }
{
    if may_be_empty {
        None
    } else {
        Some(Flaw::NoValue)
    }
}

/// The node for a region, where the atoms of the target are given in their order, and what is live of it there.
pub(crate) fn next_node(
    table: &Table,
    target: u32,
    region: &Region,
    order: &[usize],
    live: &LiveGroups,
) -> NextNode
    requires target { target < length table.now.targets }
    requires dims { region.now.dims ≡ dims_of table.now.terms }
    requires order { IfSome (slice_get table.now.targets target) (λ t. All (λ a. IsOneOf a (atoms_in t)) order.now) }
    requires live { IfSome (slice_get table.now.targets target)
        (λ t. IsLiveOf t (answers_in table.now.atoms region.now) live.now) }
    ensures { IfSome (slice_get table.now.targets target) (λ t. IsMadeOf table.now.atoms t region.now result) }
{
    match judge_live(table, target, region, live) {
        Judgement::Holds => NextNode::Leaf(None),
        Judgement::Empty => {
            let may_be_empty = table.targets.at(target as usize).may_be_empty;
            NextNode::Leaf(flaw_of_empty(may_be_empty))
        }
        Judgement::Conflict => NextNode::Leaf(Some(Flaw::Conflict)),
        Judgement::Needs(named) => NextNode::Split(split_atom(table, target, region, order, named)),
    }
}
