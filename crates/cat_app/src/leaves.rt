// How many leaves trees have.
ghost use Rattle.std.specs.Prelude.{◌≡◌, IfOk};
ghost use Rattle.cat_app.specs.Leaves.{leaf_count};

use cat_audit::CaseTrees;
use cat_table::leaves_among;
use std::alloc::AllocError;

/// The leaves of trees together. A number that no `usize` holds ends as want of memory.
pub fn leaf_count(trees: &CaseTrees) -> Result<usize, AllocError>
    ensures { IfOk result (λ count. count ≡ leaf_count trees.now) }
{
    let mut count = 0usize;
    for tree in trees.as_slice() {
        let Some(more) = count.checked_add(leaves_among(tree.nodes.as_slice())) else {
            return Err(AllocError);
        };
        count = more;
    }
    Ok(count)
}
