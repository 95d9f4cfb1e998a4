// What a walk through the lists of a tree with citations meets.
ghost use Rattle.std.specs.Prelude.{◌≡◌, ◌+◌, ◌<◌, ◌^◌, ◌++◌, [], ◌∷◌, IsTrue, IfOk, OnOk, OnSome, length};
ghost use Rattle.std.specs.Option.{option_copied};
ghost use Rattle.cat_walk.specs.LeafPlaces.{lists_of, node_at};
ghost use Rattle.cat_walk.specs.inside.Meetings.{are_earlier, start_of, met_in_list, to_come, Meets, IsWritten};

use crate::place::NodePlace;
use cat_guard::{CitedNode, CitedTree};
use cat_pos::Stack;
use std::alloc::{AllocError, Global};

/// What a walk comes to: a split on the atom of that number, a leaf, a citation of the named tree of that number, which
/// isn't gone into, or the end of a list.
#[derive(Clone, Copy, PartialEq, Eq, Debug)]
pub enum Met {
    Split(usize),
    Leaf(NodePlace),
    Cite(usize),
    End,
}

/// The node that is written there.
fn node_at(tree: &CitedTree, place: NodePlace) -> Option<CitedNode>
    ensures value { result ≡ node_at (lists_of tree.now) place }
    ensures within { OnSome result (place.node + 1 < 2 ^ 64) }
{
    let nodes = if place.list == tree.names.len() {
        &tree.main
    } else {
        tree.names.get(place.list)?
    };
    // The index of the next node fits, since the length does.
    let _length = nodes.len();
    nodes.get(place.node).copied()
}

/// Where a walk through a tree begins.
pub(crate) fn start(alloc: Global, tree: &CitedTree) -> Result<Stack<NodePlace>, AllocError>
    ensures { IfOk result (λ places. places ≡ start_of tree.now ∷ []) }
{
    let mut places = Stack::new(alloc);
    places.push(NodePlace {
        list: tree.names.len(),
        node: 0,
    })?;
    Ok(places)
}

/// What comes next. Behind the end of a list this is what follows the citation that led there.
pub(crate) fn next(
    tree: &CitedTree,
    places: &mut Stack<NodePlace>,
) -> Result<Option<Met>, AllocError>
    requires { IsTrue (are_earlier 0 (lists_of tree.now)) }
    ensures next { IfOk result (λ met. Meets (lists_of tree.now) (to_come (lists_of tree.now) places.old) met
        (to_come (lists_of tree.now) places.new)) }
    ensures leaf { IfOk result (IsWritten (lists_of tree.now)) }
{
    let Some(place) = places.pop() else {
        return Ok(None);
    };
    let Some(node) = node_at(tree, place) else {
        return Ok(Some(Met::End));
    };
    let NodePlace { list, node: index } = place;
    places.push(NodePlace {
        list,
        node: index + 1,
    })?;
    match node {
        CitedNode::Split(atom) => Ok(Some(Met::Split(atom))),
        CitedNode::Leaf => Ok(Some(Met::Leaf(place))),
        CitedNode::Cite(name) => Ok(Some(Met::Cite(name))),
    }
}

/// Goes into a named tree that is cited.
pub(crate) fn enter(
    tree: &CitedTree,
    places: &mut Stack<NodePlace>,
    name: usize,
) -> Result<(), AllocError>
    requires earlier { IsTrue (are_earlier 0 (lists_of tree.now)) }
    requires name { name < length (lists_of tree.now) }
    ensures { OnOk result (to_come (lists_of tree.now) places.new ≡ met_in_list (lists_of tree.now) name
        ++ to_come (lists_of tree.now) places.old) }
{
    places.push(NodePlace {
        list: name,
        node: 0,
    })
}
