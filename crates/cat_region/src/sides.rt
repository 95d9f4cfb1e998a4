// The way back up from a leaf, by the narrowings of a region.
ghost use Rattle.std.specs.Prelude.{◌≡◌, ◌<◌, ◌+◌, ◌⊎◌, ℕ, List, Some, IsTrue, IfSome, OnSome, length};
ghost use Rattle.std.specs.Prelude.{if◌then◌else◌};
ghost use Rattle.cat_region.specs.declared.narrowing.Narrowing.{Narrowing as Narrowed};
ghost use Rattle.cat_region.specs.Regions.{Constraints, is_cut_at};
ghost use Rattle.cat_region.specs.Sides.{IsAt, Turns, true_sides};
ghost use Rattle.cat_region.specs.inside.Undone.{Undoes};

use crate::cut::Cut;
use crate::region::Region;

/// Undoes the last narrowing of those for which a region with that room had room, and tells it.
fn undone(region: &mut Region, room: usize) -> Option<(usize, Cut, bool)>
    ensures undone { (base : Constraints) (path : List Narrowed) → base.room ≡ room → IsAt base path region.old
        → Undoes base path result region.new }
    ensures dims { region.new.dims ≡ region.old.dims }
    ensures cut { IfSome result (λ last. IsTrue (is_cut_at region.new.dims last.0 last.1)) }
    ensures room { OnSome result (0 < region.new.room) }
    ensures fewer { OnSome result (length region.new.narrowings < length region.old.narrowings) }
    ensures sides { IfSome result (λ last. true_sides region.old.narrowings
        ≡ true_sides region.new.narrowings + (if last.2 then 1 else 0)) }
{
    if region.room() == room {
        return None;
    }
    let last = region.last()?;
    region.restore();
    Some(last)
}

/// Goes back to the last split whose true side a region is on, and over to its false side, where there is one. A region
/// with that room is the whole.
pub fn to_false_side(region: &mut Region, room: usize) -> bool
    ensures turns { (base : Constraints) (path : List Narrowed) → base.room ≡ room → IsAt base path region.old
        → Turns base path result region.new }
    ensures dims { region.new.dims ≡ region.old.dims }
    ensures fewer { IsTrue result → true_sides region.new.narrowings < true_sides region.old.narrowings }
{
    while let Some((dim, cut, yes)) = undone(region, room) {
        if yes {
            region.narrow(dim, &cut, false);
            return true;
        }
    }
    false
}

/// Undoes all narrowings for which a region with that room had room.
pub fn undo_all(region: &mut Region, room: usize)
    ensures { (base : Constraints) (path : List Narrowed) → base.room ≡ room → IsAt base path region.old
        → region.new ≡ base }
{
    while undone(region, room).is_some() {}
}
