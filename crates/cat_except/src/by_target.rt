// The definitions of each target.
ghost use Rattle.std.specs.Prelude.{◌≡◌, ◌<◌, length, IfOk};
ghost use Rattle.cat_scope.specs.Forests.{definition_numbers};
ghost use Rattle.cat_scope.specs.Targets.{defs_from};
ghost use Rattle.cat_except.specs.Parted.{ArePartedBy, list_at};

use crate::lists::list_under;
use cat_pos::{ENTRIES_BOUND, Numbers};
use cat_scope::Def;
use cat_value::Target;
use indexmap::IndexSet;
use std::alloc::{AllocError, Global};

/// The targets of definitions, by their items, with the numbers of the definitions of each.
#[derive(Drop)]
pub struct ByTarget {
    pub keys: IndexSet<(u32, Option<u32>)>,
    pub lists: Vec<Numbers>,
}

impl ByTarget {
    /// The numbers of a target's definitions, in source order.
    pub fn numbers(&self, target: Target) -> &[u32]
        requires { length self.now.lists.items ≡ length self.now.keys.keys }
        ensures { result.now ≡ list_at target self.now.keys.keys self.now.lists.items }
    {
        match self.keys.get_index_of(&(target.item, target.inner)) {
            Some(index) => self.lists[index].as_slice(),
            None => &[],
        }
    }
}

/// Parts the definitions of a scope by their targets.
pub fn definitions_by_target(alloc: Global, defs: &[Def]) -> Result<ByTarget, AllocError>
    requires { length defs.now < ENTRIES_BOUND }
    ensures { IfOk result (λ table. ArePartedBy defs.now table.keys.keys table.lists.items) }
{
    let mut keys = IndexSet::new(alloc);
    let mut lists = Vec::new(alloc);
    for (number, def) in defs.iter().enumerate() {
        let key = (def.target.item, def.target.inner);
        list_under(alloc, &mut keys, &mut lists, key, number as u32)?;
    }
    Ok(ByTarget { keys, lists })
}
