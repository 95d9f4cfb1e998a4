// Where definitions stand.
ghost use Rattle.std.specs.Prelude.{◌≡◌};
ghost use Rattle.cat_dead.specs.Winners.{is_same};

use cat_pos::Pos;

/// Whether two positions are one.
pub fn is_same(one: Pos, other: Pos) -> bool
    ensures { result ≡ is_same one other }
{
    one.line == other.line && one.place == other.place
}
