// Regions of a table's terms.
ghost use Rattle.std.specs.Prelude.{◌≡◌, ◌<◌, ◌+◌, [], IfOk, length};
ghost use Rattle.cat_guard.specs.declared.levels.Levels.{Levels as LevelsSeen};
ghost use Rattle.cat_guard.specs.declared.table.TableTarget.{TableTarget as TargetSeen};
ghost use Rattle.cat_guard.specs.Levels.{AreLiveTo};
ghost use Rattle.cat_guard.specs.Trees.{answering};
ghost use Rattle.cat_guard.specs.Valuations.{dims_of};

use crate::{Atom, Table, Term};
use cat_pos::List;
use cat_region::{Dim, Region};
use std::alloc::{AllocError, Global};

/// The dimension of each term.
fn dims(alloc: Global, terms: &[Term]) -> Result<List<Dim>, AllocError>
    ensures { IfOk result (λ dims. dims ≡ dims_of terms.now) }
{
    let mut dims = List::new(alloc);
    for term in terms {
        dims.push(term.dim)?;
    }
    Ok(dims)
}

/// The region that admits every valuation of a table's terms, with room for `depth` narrowings.
pub fn whole_region(alloc: Global, table: &Table, depth: usize) -> Result<Region, AllocError>
    ensures { IfOk result (λ region. region
        ≡ record { dims = dims_of table.now.terms; narrowings = []; room = depth }) }
{
    let dims = dims(alloc, table.terms.as_slice())?;
    Region::new(alloc, dims.as_slice(), depth)
}

/// Keeps of what a region admits what gives the atom of that number this truth value.
pub fn answer_atom(table: &Table, region: &mut Region, atom: usize, yes: bool)
    requires atom { atom < length table.now.atoms }
    requires dims { region.old.dims ≡ dims_of table.now.terms }
    requires room { 0 < region.old.room }
    ensures dims { region.new.dims ≡ region.old.dims }
    ensures narrowings { region.new.narrowings ≡ (answering table.now.atoms region.old atom yes).narrowings }
    ensures room { region.new.room + 1 ≡ region.old.room }
    ensures live { (t : TargetSeen) (levels : LevelsSeen) → AreLiveTo table.now.atoms t region.old levels
        → AreLiveTo table.now.atoms t region.new levels }
{
    let Atom { term, cut } = *table.atoms.at(atom);
    region.narrow(term, &cut, yes);
}
