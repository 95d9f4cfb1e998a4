// That some room is enough.
ghost use Rattle.std.specs.Prelude.{ℕ, List};
ghost use Rattle.cat_io.specs.Shelf.{Shelved};
ghost use Rattle.cat_app.specs.Words.{ask_of};
ghost use Rattle.cat_laws.specs.Told.{HasRoom, IsRun, TellsAll, TellsRun, WhereAsked};

use cat_names::{
    each_tree_is_accepted_or_refused, refused_trees_have_no_program, trees_have_one_program,
};
use cat_parse::{
    expressions_are_read_rightly, programs_are_read_exactly, tokens_spell_one_program,
};

/// Over a shelf that tells what a run reads, some room is enough for each reply that may come to one who asks for a
/// run, with every status: also where the source is refused or a read fails. The room hangs on the words and the shelf
/// before the call alone, so that a sink may have it.
pub fn told_replies_fit()
    ensures runs { (words : List (List ℕ)) (shelf : Shelved) → WhereAsked (ask_of words) (TellsRun shelf)
        → HasRoom words shelf }
    ensures shelves { (words : List (List ℕ)) (shelf : Shelved) → WhereAsked (ask_of words) IsRun → TellsAll shelf
        → HasRoom words shelf }
{
    programs_are_read_exactly();
    expressions_are_read_rightly();
    tokens_spell_one_program();
    each_tree_is_accepted_or_refused();
    refused_trees_have_no_program();
    trees_have_one_program();
}
