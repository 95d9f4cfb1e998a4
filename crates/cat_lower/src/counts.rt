// The numbers of cases and functions in code.
ghost use Rattle.std.specs.Prelude.{◌≡◌, IfOk};
ghost use Rattle.cat_lower.specs.Rows as words;
ghost use Rattle.cat_lower.specs.Told.{standing_at};

use crate::LoweringScene;
use crate::growing::{added, fitting};
use crate::scene::tables_are_made;
use std::alloc::AllocError;

/// The number of a function among those of all scopes, by its item. Want of memory is answered too where there is no
/// such item, which no expression names.
pub fn function_number(here: &LoweringScene, item: u32) -> Result<u32, AllocError>
    ensures { IfOk result (λ n. n ≡ words.function_number (standing_at here.now) item) }
{
    tables_are_made(here);
    let Some(start) = here.function_starts.get(item as usize) else {
        return Err(AllocError);
    };
    let number = added(here.functions as usize, *start as usize)?;
    fitting(number)
}

/// The number of a case among all cases. Want of memory is answered too where there is no such enumeration, which no
/// expression names.
pub fn case_number(here: &LoweringScene, enumeration: u32, case: u32) -> Result<u32, AllocError>
    ensures { IfOk result (λ n. n ≡ words.case_number (standing_at here.now) enumeration case) }
{
    tables_are_made(here);
    let Some(start) = here.case_starts.get(enumeration as usize) else {
        return Err(AllocError);
    };
    let number = added(*start as usize, case as usize)?;
    fitting(number)
}
