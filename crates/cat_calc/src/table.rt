// Where the targets of a forest stand in it.
ghost use Rattle.std.specs.Prelude.{IfOk};
ghost use Rattle.cat_calc.specs.inside.Tabled.{IsTableOf};

use cat_scope::ForestTarget;
use indexmap::IndexMap;
use std::alloc::{AllocError, Global};

/// The index of each target of a forest, by its item and inner item.
pub type TargetTable = IndexMap<(u32, Option<u32>), usize>;

pub fn target_table(alloc: Global, targets: &[ForestTarget]) -> Result<TargetTable, AllocError>
    ensures { IfOk result (IsTableOf targets.now) }
{
    let mut table = IndexMap::new(alloc);
    for (index, entry) in targets.iter().enumerate() {
        table.insert((entry.target.item, entry.target.inner), index)?;
    }
    Ok(table)
}
