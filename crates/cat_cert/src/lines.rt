// Where nodes are written.
ghost use Rattle.std.specs.Prelude.{◌≡◌, ◌<◌, ◌^◌, length};
ghost use Rattle.cat_cert.specs.Uncovered.{line_of};

use crate::LineNumbers;
use cat_walk::NodePlace;

/// The line of a node, by the line before each list.
pub(crate) fn line_of(heads: &LineNumbers, place: NodePlace) -> usize
    requires list { place.list < length heads.now }
    requires fits { line_of heads.now place < 2 ^ 64 }
    ensures { result ≡ line_of heads.now place }
{
    *heads.at(place.list) + 1 + place.node
}
