// Where definitions stand.
ghost use Rattle.std.specs.Prelude.{IfOk};
ghost use Rattle.cat_dead_report.specs.inside.Places.{HaveNumbers};

use cat_guard::GuardDef;
use cat_pos::List;
use indexmap::IndexSet;
use std::alloc::{AllocError, Global};

/// For each definition the number of its place, among places numbered by first appearance; and how many there are.
pub(crate) fn numbered_places(
    alloc: Global,
    definitions: &[GuardDef],
) -> Result<(List<usize>, usize), AllocError>
    ensures { IfOk result (λ made. HaveNumbers definitions.now made.0 made.1) }
{
    let mut places = IndexSet::new(alloc);
    let mut numbers = List::new(alloc);
    for definition in definitions {
        let (number, _new) = places.insert_full((definition.pos.line, definition.pos.place))?;
        numbers.push(number)?;
    }
    Ok((numbers, places.len()))
}
