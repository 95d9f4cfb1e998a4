// What holds of sources that are accepted.
ghost use Rattle.std.specs.Prelude.{◌≡◌, ◌≢◌, ◌≤◌, ◌<◌, IsTrue, List, length};
ghost use Rattle.cat_pos.specs.declared.limits.TheConstants.{ENTRIES_BOUND};
ghost use Rattle.cat_pos.specs.declared.pos.Piece.{Piece};
ghost use Rattle.cat_scope.specs.declared.programs.Program.{Program};
ghost use Rattle.cat_scope.specs.Names.{AllHave};
ghost use Rattle.cat_value.specs.Declarations.{most_cases};
ghost use Rattle.cat_json.specs.Names.{names_are_distinct};
ghost use Rattle.cat_build.specs.Accepted.{IsAccepted};
ghost use Rattle.cat_build.specs.Causes.{HasCause};
ghost use Rattle.cat_build.specs.declared.code.BuildRefusal.{BuildRefusal};

use crate::code::BuildRefusal;
use cat_except::refused_scopes_make_no_forest;
use cat_lex::{pieces_have_one_reading, refused_pieces_have_no_reading};
use cat_names::{
    cases_are_counted, definitions_are_counted, refused_trees_have_no_program,
    trees_have_one_program,
};
use cat_parse::tokens_spell_one_program;

/// Pieces are accepted as one program at most.
pub fn pieces_have_one_program()
    ensures { (pieces : List Piece) (program other : Program) → IsAccepted pieces program → IsAccepted pieces other
        → program ≡ other }
{
    pieces_have_one_reading();
    tokens_spell_one_program();
    trees_have_one_program();
}

/// Pieces that are refused for another reason than memory are not accepted. So what is accepted is built, while memory
/// lasts.
pub fn refused_pieces_are_not_accepted()
    ensures { (pieces : List Piece) (refusal : BuildRefusal) (program : Program) → refusal ≢ BuildRefusal.Memory
        → HasCause pieces refusal → ¬ IsAccepted pieces program }
{
    pieces_have_one_reading();
    refused_pieces_have_no_reading();
    tokens_spell_one_program();
    refused_trees_have_no_program();
    trees_have_one_program();
    refused_scopes_make_no_forest();
}

/// An accepted program keeps the counts of definitions and of cases.
pub fn accepted_programs_are_counted()
    ensures definitions { (pieces : List Piece) (program : Program) → IsAccepted pieces program
        → AllHave (λ body. length body.defs < ENTRIES_BOUND) program.bodies }
    ensures cases { (pieces : List Piece) (program : Program) → IsAccepted pieces program
        → AllHave (λ e. length e.cases ≤ most_cases) program.decls.enumerations }
{
    definitions_are_counted();
    cases_are_counted();
}

/// No two fields of a structure, no two cases of an enumeration and no two inputs of a scope of an accepted program
/// have one name.
pub fn accepted_programs_have_distinct_names()
    ensures { (pieces : List Piece) (program : Program) → IsAccepted pieces program
        → IsTrue (names_are_distinct program.decls) }
{}
