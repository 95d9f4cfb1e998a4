// The groups of a target's definitions.
ghost use Rattle.std.specs.Prelude.{◌≡◌, ◌<◌, length, All, IfOk, List as Listed};
ghost use Rattle.cat_scope.specs.declared.defs.Def.{Def as Definition};
ghost use Rattle.cat_scope.specs.Groups.{groups_of, target_of, roots_of, only};
ghost use Rattle.cat_except.specs.inside.Grouping.{defs_at, group_by, groups_at, ArePlaced, AreParted, AreGroups};

use crate::group_key::{GroupKey, key_of};
use crate::lists::list_under;
use cat_pos::{ENTRIES_BOUND, Numbers};
use cat_scope::{Def, Except};
use cat_value::Target;
use indexmap::IndexSet;
use std::alloc::{AllocError, Global};

/// The groups of a target's definitions, ordered by their first definitions.
#[derive(Drop)]
pub struct Groups {
    pub target: Target,
    pub keys: IndexSet<GroupKey>,
    /// The numbers of the definitions of each group.
    pub lists: Vec<Numbers>,
    /// The only group that is no exception, where there is one alone.
    pub only_root: Option<u32>,
}

impl Groups {
    /// Parts the definitions of a target, by their numbers.
    pub fn new(
        alloc: Global,
        defs: &[Def],
        target: Target,
        numbers: &[u32],
    ) -> Result<Groups, AllocError>
        requires few { length numbers.now < ENTRIES_BOUND }
        requires numbers { All (λ n. n < length defs.now) numbers.now }
        ensures target { IfOk result (λ groups. groups.target ≡ target) }
        ensures parted { IfOk result (λ groups. groups_at defs.now groups.lists.items
            ≡ groups_of (defs_at defs.now numbers.now)) }
        ensures groups { IfOk result (AreGroups defs.now) }
    {
        let (keys, lists) = parted(alloc, defs, numbers)?;
        let only_root = only_root(defs, &lists);
        Ok(Groups {
            target,
            keys,
            lists,
            only_root,
        })
    }

    /// The group that an exception is one to.
    pub fn target_of(&self, except: &Except) -> Option<u32>
        requires { length self.now.keys.keys < ENTRIES_BOUND }
        ensures { (defs : Listed Definition) → AreGroups defs self.now
            → result ≡ target_of (groups_at defs self.now.lists.items) except.now }
    {
        match except {
            Except::No => None,
            Except::OnlyRoot(_) => self.only_root,
            Except::Named(_, label) => match self.keys.get_index_of(&label.text) {
                Some(group) => Some(group as u32),
                None => None,
            },
        }
    }
}

/// The keys of groups, and the numbers of their definitions.
fn parted(
    alloc: Global,
    defs: &[Def],
    numbers: &[u32],
) -> Result<(IndexSet<GroupKey>, Vec<Numbers>), AllocError>
    requires { All (λ n. n < length defs.now) numbers.now }
    ensures { IfOk result (λ r. AreParted defs.now numbers.now r.0.keys r.1.items) }
{
    let mut keys = IndexSet::new(alloc);
    let mut lists = Vec::new(alloc);
    for &number in numbers {
        let key = key_of(alloc, number, &defs[number as usize])?;
        list_under(alloc, &mut keys, &mut lists, key, number)?;
    }
    Ok((keys, lists))
}

/// What a group is an exception to: what its first definition is one to.
pub fn group_except<'a>(defs: &'a [Def], list: &[u32]) -> &'a Except
    requires some { 0 < length list.now }
    requires numbers { All (λ n. n < length defs.now) list.now }
    ensures { result.now ≡ (group_by (defs_at defs.now list.now)).except }
{
    &defs[list[0] as usize].except
}

fn only_root(defs: &[Def], lists: &[Numbers]) -> Option<u32>
    requires few { length lists.now < ENTRIES_BOUND }
    requires placed { ArePlaced defs.now lists.now }
    ensures { result ≡ only (roots_of (groups_at defs.now lists.now)) }
{
    let mut root = None;
    for (group, list) in lists.iter().enumerate() {
        if let Except::No = group_except(defs, list.as_slice()) {
            if root.is_some() {
                return None;
            }
            root = Some(group as u32);
        }
    }
    root
}
