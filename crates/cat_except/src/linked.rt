// The targets of a scope with their groups and what each group excepts.
ghost use Rattle.std.specs.Prelude.{◌≡◌, ◌<◌, length, IfOk, IfErr, OnOk, IsSome, Some, ℕ, [], List as Listed};
ghost use Rattle.cat_scope.specs.Names.{AllHave};
ghost use Rattle.cat_scope.specs.Forests.{forest_of_groups};
ghost use Rattle.cat_except.specs.Excepted.{StandsOnCycle, StandsPastLimit};
ghost use Rattle.cat_except.specs.Causes.{StandsIn};
ghost use Rattle.cat_except.specs.inside.Grouping.{groups_at, ArePlaced, AreGroups};
ghost use Rattle.cat_except.specs.inside.Finding.{groups_at_each, AreGroupsOfEach};
ghost use Rattle.cat_except.specs.inside.Linking.{pairs_at};
ghost use Rattle.cat_except.specs.inside.Chains.{target_at};
ghost use Rattle.cat_except.specs.inside.Linked.{word_at, IsLinked, linked_groups, linked_targets, group_targets};
ghost use Rattle.cat_except.specs.inside.Linked.{IsCycleIn, IsLimitIn, AreShort, forest_at, bare_groups, with_pairs};

use crate::ExceptRefusal;
use crate::chains::past_limit;
use crate::excepted::{as_lists, excepted_of};
use crate::groups::{Groups, group_except};
use cat_order::{OrderRefusal, a_cycle_leaves_no_order, order};
use cat_pos::{ENTRIES_BOUND, List, Numbers, Pos};
use cat_scope::{Def, Except, ForestGroup, ForestTarget, ForestTargets};
use cat_value::Target;
use std::alloc::{AllocError, Global};

/// A target whose groups except one another without a cycle.
#[derive(Drop)]
pub struct Linked {
    pub target: Target,
    /// The numbers of the definitions of each group.
    pub lists: Vec<Numbers>,
    /// For each group, the group that it excepts, where it is an exception.
    pub excepted: Vec<Option<u32>>,
    /// The groups, each behind the one that it excepts.
    pub order: Numbers,
}

/// The word `exception` of a group that is one.
fn word_of(defs: &[Def], lists: &[Numbers], group: u32) -> Pos
    requires group { group < length lists.now }
    requires placed { ArePlaced defs.now lists.now }
    requires word { IsSome (word_at defs.now lists.now group) }
    ensures { word_at defs.now lists.now group ≡ Some result }
{
    match group_except(defs, lists[group as usize].as_slice()) {
        Except::OnlyRoot(pos) | Except::Named(pos, _) => *pos,
        Except::No => unreachable!(),
    }
}

/// Puts the groups of a target in an order.
fn link(alloc: Global, defs: &[Def], groups: Groups) -> Result<Linked, ExceptRefusal>
    requires { AreGroups defs.now groups }
    ensures target { IfOk result (λ linked. linked.target ≡ groups.target) }
    ensures lists { IfOk result (λ linked. linked.lists.items ≡ groups.lists.items) }
    ensures linked { IfOk result (IsLinked defs.now) }
    ensures cause { IfErr result (IsCycleIn (StandsOnCycle (groups_at defs.now groups.lists.items))) }
{
    a_cycle_leaves_no_order();
    let excepted = excepted_of(alloc, defs, &groups)?;
    let deps = as_lists(alloc, &excepted)?;
    match order(alloc, deps.len() as u32, &deps) {
        Ok(order) => {
            let Groups {
                target,
                keys: _,
                lists,
                only_root: _,
            } = groups;
            Ok(Linked {
                target,
                lists,
                excepted,
                order,
            })
        }
        Err(OrderRefusal::Cycle(group)) => {
            Err(ExceptRefusal::ExceptionCycle(word_of(defs, &groups.lists, group)))
        }
        Err(OrderRefusal::Memory) => Err(ExceptRefusal::Memory),
    }
}

/// The targets in their order, or the refusal of a group on a cycle.
pub fn link_each(
    alloc: Global,
    defs: &[Def],
    targets: List<Groups>,
) -> Result<List<Linked>, ExceptRefusal>
    requires { AreGroupsOfEach defs.now targets }
    ensures targets { IfOk result (λ linked. linked_targets linked ≡ group_targets targets) }
    ensures groups { IfOk result (λ linked. linked_groups defs.now linked ≡ groups_at_each defs.now targets) }
    ensures linked { IfOk result (AllHave (IsLinked defs.now)) }
    ensures cause { IfErr result (IsCycleIn (StandsIn StandsOnCycle (groups_at_each defs.now targets))) }
{
    let mut linked = List::new(alloc);
    for groups in targets.into_vec() {
        linked.push(link(alloc, defs, groups)?)?;
    }
    Ok(linked)
}

/// Refuses a chain of exceptions that is too long.
pub fn check_chains(alloc: Global, defs: &[Def], targets: &[Linked]) -> Result<(), ExceptRefusal>
    requires { AllHave (IsLinked defs.now) targets.now }
    ensures short { OnOk result (AreShort targets.now) }
    ensures cause { IfErr result (IsLimitIn (StandsIn StandsPastLimit (linked_groups defs.now targets.now))) }
{
    for target in targets {
        if let Some(group) = past_limit(alloc, &target.excepted, target.order.as_slice())? {
            return Err(ExceptRefusal::TooMany(word_of(defs, &target.lists, group)));
        }
    }
    Ok(())
}

/// The groups, none of which is excepted yet.
fn bare_groups(alloc: Global, lists: Vec<Numbers>) -> Result<Vec<ForestGroup>, AllocError>
    ensures { IfOk result (λ groups. groups.items ≡ bare_groups lists.items) }
{
    let mut groups = Vec::with_capacity(alloc, lists.len())?;
    for defs in lists {
        groups.push(ForestGroup {
            defs,
            excepted_by: List::new(alloc),
        })?;
    }
    Ok(groups)
}

/// Tells each group which ones except it.
fn add_exceptions(groups: &mut [ForestGroup], excepted: &[Option<u32>]) -> Result<(), AllocError>
    requires few { length excepted.now < ENTRIES_BOUND }
    requires within { (g : ℕ) (h : ℕ) → target_at excepted.now g ≡ Some h → h < length groups.old }
    ensures { (lists : Listed (Listed ℕ)) → groups.old ≡ with_pairs [] 0 lists
        → OnOk result (groups.new ≡ with_pairs (pairs_at 0 excepted.now) 0 lists) }
{
    for (group, &target) in excepted.iter().enumerate() {
        let Some(target) = target else {
            continue;
        };
        groups[target as usize].excepted_by.push(group as u32)?;
    }
    Ok(())
}

fn forest_target(alloc: Global, linked: Linked) -> Result<ForestTarget, AllocError>
    requires few { length linked.excepted.items < ENTRIES_BOUND }
    requires within { (g : ℕ) (h : ℕ) → target_at linked.excepted.items g ≡ Some h → h < length linked.lists.items }
    ensures target { IfOk result (λ t. t.target ≡ linked.target) }
    ensures groups { IfOk result (λ t. t.groups ≡ with_pairs (pairs_at 0 linked.excepted.items) 0 linked.lists.items) }
{
    let Linked {
        target,
        lists,
        excepted,
        order: _,
    } = linked;
    let mut groups = bare_groups(alloc, lists)?;
    add_exceptions(&mut groups, &excepted)?;
    Ok(ForestTarget {
        target,
        groups: List::from_vec(groups),
    })
}

/// The targets of the forest.
pub fn forest_targets(
    alloc: Global,
    defs: &[Def],
    targets: List<Linked>,
) -> Result<ForestTargets, AllocError>
    requires { AllHave (IsLinked defs.now) targets }
    ensures { IfOk result (λ forest. forest ≡ forest_at defs.now targets) }
{
    let mut forest = List::new(alloc);
    for target in targets.into_vec() {
        forest.push(forest_target(alloc, target)?)?;
    }
    Ok(forest)
}
