// What trees and winners mean for runs: each law is the contract of a function.
ghost use Rattle.std.specs.Prelude.{◌≡◌, false, IsTrue};
ghost use Rattle.std.specs.List.{list_any};
ghost use Rattle.cat_pos.specs.declared.pos.Pos.{Pos as PosSeen};
ghost use Rattle.cat_region.specs.Regions.{Constraints, Valuation, Admits, IsRegion};
ghost use Rattle.cat_scope.specs.Names.{AllHave};
ghost use Rattle.cat_guard.specs.Tables.{TablesScope};
ghost use Rattle.cat_guard.specs.TableJudging.{decided};
ghost use Rattle.cat_guard.specs.Trees.{Tree, is_whole};
ghost use Rattle.cat_guard.specs.Valuations.{dims_of, holds_at};
ghost use Rattle.cat_walk.specs.Coverage.{leaf_regions};
ghost use Rattle.cat_dead.specs.NeverDecides.{HoldsNowhere, IsHeldElsewhere, NeverDecides};
ghost use Rattle.cat_dead.specs.Winners.{is_open_in, is_same, winners_in};

use cat_guard::{Table, judgings_of_regions_hold};
use cat_scope::{Program, programs_are_well_formed};

/// Where no leaf of a whole tree is open, what wins in none of them holds at no valuation that the tree's region
/// admits.
pub fn what_wins_nowhere_is_never_held(table: &Table)
    ensures { AllHave (λ t. (region : Constraints) (tree : Tree) (p : PosSeen) (v : Valuation) → IsRegion region
        → region.dims ≡ dims_of table.now.terms → IsTrue (is_whole tree)
        → list_any (is_open_in table.now.atoms t) (leaf_regions table.now.atoms region tree) ≡ false
        → list_any (is_same p) (winners_in table.now.atoms t (leaf_regions table.now.atoms region tree)) ≡ false
        → Admits region v → IsHeldElsewhere p (decided t (holds_at table.now.atoms v)).end) table.now.targets }
{
    judgings_of_regions_hold(table);
}

/// A definition of a target that holds at no valuation decides in no run of the scope on a well-typed input.
pub fn what_is_never_held_never_decides(program: &Program, table: &Table)
    requires { TablesScope program.now table.now.scope table.now }
    ensures { (p : PosSeen) → AllHave (λ t. HoldsNowhere table.now t p
        → AllHave (λ u. u.target ≡ t.target → HoldsNowhere table.now u p) table.now.targets
        → NeverDecides program.now table.now t p) table.now.targets }
{
    programs_are_well_formed(program);
}
