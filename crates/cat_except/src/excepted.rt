// Which groups of a target except which.
ghost use Rattle.std.specs.Prelude.{◌≡◌, length, IfOk};
ghost use Rattle.cat_except.specs.Excepted.{listed};
ghost use Rattle.cat_except.specs.inside.Grouping.{groups_at, AreGroups};
ghost use Rattle.cat_except.specs.inside.Linking.{targets_from, lists_of};

use crate::groups::{Groups, group_except};
use cat_pos::{List, Numbers};
use cat_scope::Def;
use std::alloc::{AllocError, Global};

/// For each group, the group that it excepts, where it is an exception.
pub fn excepted_of(
    alloc: Global,
    defs: &[Def],
    groups: &Groups,
) -> Result<Vec<Option<u32>>, AllocError>
    requires { AreGroups defs.now groups.now }
    ensures { IfOk result (λ excepted. excepted.items
        ≡ targets_from (groups_at defs.now groups.now.lists.items) (groups_at defs.now groups.now.lists.items)) }
{
    let mut excepted = Vec::with_capacity(alloc, groups.lists.len())?;
    for list in &groups.lists {
        excepted.push(groups.target_of(group_except(defs, list.as_slice())))?;
    }
    Ok(excepted)
}

fn as_list(alloc: Global, group: Option<u32>) -> Result<Numbers, AllocError>
    ensures { IfOk result (λ list. list ≡ listed group) }
{
    let mut list = List::new(alloc);
    if let Some(group) = group {
        list.push(group)?;
    }
    Ok(list)
}

/// The same as lists.
pub fn as_lists(alloc: Global, excepted: &[Option<u32>]) -> Result<Vec<Numbers>, AllocError>
    ensures { IfOk result (λ lists. lists.items ≡ lists_of excepted.now) }
{
    let mut lists = Vec::with_capacity(alloc, excepted.len())?;
    for &group in excepted {
        lists.push(as_list(alloc, group)?)?;
    }
    Ok(lists)
}
