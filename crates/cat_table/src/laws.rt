// What tables keep: each law is the contract of a function.
ghost use Rattle.std.specs.Prelude.{◌≡◌, List, [], Some, map};
ghost use Rattle.cat_value.specs.declared.ty.Ty.{Ty as TypeSeen};
ghost use Rattle.cat_scope.specs.declared.expr.Expr.{Expr as ExprSeen};
ghost use Rattle.cat_scope.specs.HasType.{HasType};
ghost use Rattle.cat_scope.specs.Names.{AllHave, Names};
ghost use Rattle.cat_guard.specs.Trees.{Tree};
ghost use Rattle.cat_search.specs.Searched.{everything, IsSearched};
ghost use Rattle.cat_table.specs.declared.named_type.NamedType.{NamedType as NamedSeen};
ghost use Rattle.cat_table.specs.Conditions.{Naming};
ghost use Rattle.cat_table.specs.Judgings.{AgreesWithItsLine, IsInRun, RunJudging, end_of, target_at, valuation_at};
ghost use Rattle.cat_table.specs.Kept.{AreKept};
ghost use Rattle.cat_table.specs.NamedTypes.{named};
ghost use Rattle.cat_table.specs.Rows.{rows_from};
ghost use Rattle.cat_table.specs.Told.{told};

use cat_guard::{Table, judgings_of_regions_hold};
use cat_scope::{Program, programs_are_well_formed};
use cat_search::searched_trees_part_what_is_admitted;

/// The regions of a searched tree's leaves and rests are disjoint and together admit every valuation, and the line of
/// each leaf says what decides the target at each valuation that its region admits.
pub fn tables_say_what_decides(table: &Table)
    ensures { AllHave (λ t. (ns : Naming) (tree : Tree)
        → IsSearched table.now.atoms t (everything table.now.terms) tree
        → AreKept ns table.now t (rows_from table.now.atoms [] (everything table.now.terms) tree)) table.now.targets }
{
    searched_trees_part_what_is_admitted(table);
    judgings_of_regions_hold(table);
}

/// What an expression tells of its type is so: it is the structure or the enumeration that its type is.
pub fn expressions_tell_their_types()
    ensures { (ns : Names) (ls : List TypeSeen) (e : ExprSeen) (t : TypeSeen) (m : NamedSeen) → HasType ns ls e t
        → told ns.decls ns.items e (map named ls) ≡ Some m → named t ≡ Some m }
{}

/// What a judging in a run came to agrees with its line: exactly one region of a searched tree's leaves and rests
/// admits what the terms evaluate to there, and where it is that of a leaf, its line names the definition that held,
/// that none did, or the conflict of this very target.
pub fn judgings_agree_with_their_lines(program: &Program, table: &Table)
    ensures { (j : RunJudging) → IsInRun program.now table.now j → AllHave (λ t. t.target ≡ target_at j
        → (ns : Naming) (tree : Tree) → IsSearched table.now.atoms t (everything table.now.terms) tree
        → ∥ AgreesWithItsLine ns table.now t (rows_from table.now.atoms [] (everything table.now.terms) tree)
        (valuation_at program.now j table.now) (end_of program.now j) ∥₁) table.now.targets }
{
    programs_are_well_formed(program);
    tables_say_what_decides(table);
}
