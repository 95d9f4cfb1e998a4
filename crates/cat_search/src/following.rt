// What answers leave of all valuations.
ghost use Rattle.std.specs.Prelude.{◌≡◌, IsTrue, IfOk, length};
ghost use Rattle.cat_search.specs.Searched.{everything};
ghost use Rattle.cat_search.specs.Ways.{ask_below};
ghost use Rattle.cat_search.specs.inside.Following.{following};

use crate::way::Answer;
use cat_guard::{Table, answer_atom, whole_region};
use cat_region::Region;
use std::alloc::{AllocError, Global};

/// What answers leave, from the first one on.
pub(crate) fn following(
    alloc: Global,
    table: &Table,
    answers: &[Answer],
) -> Result<Region, AllocError>
    requires { IsTrue (ask_below (length table.now.atoms) answers.now) }
    ensures { IfOk result (λ region. region ≡ following table.now.atoms (everything table.now.terms) answers.now) }
{
    let mut region = whole_region(alloc, table, answers.len())?;
    for &Answer { atom, yes } in answers {
        answer_atom(table, &mut region, atom, yes);
    }
    Ok(region)
}
