// The tables of a scope's targets.
ghost use Rattle.std.specs.Prelude.{◌≡◌, ◌<◌, IfOk, IfSome, length, option_map, slice_get, string_bytes};
ghost use Rattle.cat_region.specs.Regions.{IsInhabited};
ghost use Rattle.cat_search.specs.Searched.{everything, roomy};
ghost use Rattle.cat_table.specs.Wanted as words;
ghost use Rattle.cat_table.specs.inside.OneTable.{IsOneTable};

use crate::table::table_text;
use crate::wanted::is_wanted;
use cat_guard::{Table, whole_region};
use cat_pos::Files;
use cat_region::Region;
use cat_scope::Program;
use cat_search::{Search, search_in};
use std::alloc::{AllocError, Global};

/// Tables as they are written.
#[derive(Debug, Drop)]
pub struct TableTexts {
    pub text: String,
    /// Whether the leaves of a search were spent.
    pub spent: bool,
}

fn is_spent(search: &Search) -> bool
    ensures { result ≡ words.is_spent search.now }
{
    match search {
        Search::Closed { tree: _, bad: _ } => false,
        Search::Spent { tree: _, bad: _ } => true,
    }
}

/// The table of one target. It gives the region back that the search began in.
fn one_table(
    alloc: Global,
    program: &Program,
    files: &Files,
    table: &Table,
    target: u32,
    budget: u64,
    whole: Region,
) -> Result<(TableTexts, Region), AllocError>
    requires scope { table.now.scope < length program.now.decls.scopes }
    requires some { IsInhabited (everything table.now.terms) }
    requires target { target < length table.now.targets }
    requires budget { 0 < budget }
    requires whole { whole ≡ roomy table.now.terms table.now.atoms }
    ensures table { IfSome (slice_get table.now.targets target) (λ t. IfOk result (λ made.
        IsOneTable program.now.decls files.now table.now budget t (string_bytes made.0.text) made.0.spent)) }
    ensures back { IfOk result (λ made. made.1 ≡ whole) }
{
    let (search, whole) = search_in(alloc, table, target, budget, whole)?;
    let text = table_text(alloc, program, files, table, target, &search)?;
    let spent = is_spent(&search);
    Ok((TableTexts { text, spent }, whole))
}

/// The tables of the targets that are wanted: of all of them, or of that of a name. The search for a target makes at
/// most `budget` leaves.
pub fn tables_text(
    alloc: Global,
    program: &Program,
    files: &Files,
    table: &Table,
    wanted: Option<&str>,
    budget: u64,
) -> Result<TableTexts, AllocError>
    requires scope { table.now.scope < length program.now.decls.scopes }
    requires some { IsInhabited (everything table.now.terms) }
    requires budget { 0 < budget }
    ensures { IfOk result (λ made. words.AreTables program.now.decls files.now table.now budget
        (words.wanted_of (option_map (λ name. name.now) wanted.entry) table.now.targets) (string_bytes made.text)
        made.spent) }
{
    let mut whole = whole_region(alloc, table, table.atoms.len())?;
    let mut text = String::new(alloc);
    let mut spent = false;
    for (number, target) in table.targets.as_slice().iter().enumerate() {
        let Ok(number) = u32::try_from(number) else {
            return Err(AllocError);
        };
        if !is_wanted(target, wanted) {
            continue;
        }
        let (made, back) = one_table(alloc, program, files, table, number, budget, whole)?;
        whole = back;
        text.push_str(made.text.as_str())?;
        spent |= made.spent;
    }
    Ok(TableTexts { text, spent })
}
