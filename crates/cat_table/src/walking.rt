// From node to node of a tree, with the region there and what is live of the target on the way.
ghost use Rattle.std.specs.Prelude.{◌≡◌, ◌<◌, IsTrue, IfOk, OnOk, length};
ghost use Rattle.cat_search.specs.Ways.{ask_below, passed};
ghost use Rattle.cat_table.specs.inside.Walking.{GoesOn, IsOn};

use crate::scene::TableScene;
use cat_guard::{Levels, TreeNode, answer_atom};
use cat_region::Region;
use cat_search::Way;
use cat_walk::{keep_live, to_next_side};
use std::alloc::AllocError;

/// Goes from a node to the one behind it, and answers whether there is one. A region with that room is the whole.
pub(crate) fn move_on(
    here: &TableScene,
    target: u32,
    node: TreeNode,
    room: usize,
    way: &mut Way,
    region: &mut Region,
    levels: &mut Levels,
) -> Result<bool, AllocError>
    requires target { target < length here.now.table.now.targets }
    requires asked { IsTrue (ask_below (length here.now.table.now.atoms) (passed node way.old)) }
    requires few { length way.old < room }
    requires on { IsOn here.now.table.now target room way.old region.old levels.old }
    ensures way { OnOk result (way.new ≡ passed node way.old) }
    ensures on { IfOk result (GoesOn here.now.table.now target room way.new region.new levels.new) }
{
    way.go_on(&[node])?;
    match node {
        TreeNode::Split(atom) => {
            keep_live(here.alloc, here.table, target, region, atom, levels)?;
            answer_atom(here.table, region, atom, true);
            Ok(true)
        }
        TreeNode::Leaf | TreeNode::Rest => Ok(to_next_side(region, room, levels)),
    }
}
