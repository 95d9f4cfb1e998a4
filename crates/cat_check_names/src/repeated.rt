// Names that stand twice.
ghost use Rattle.std.specs.Prelude.{◌≡◌, ◌++◌, OnOk, map};
ghost use Rattle.cat_names.specs.Unknown.{twice};

use crate::{Faults, Written};
use cat_names::Fault;
use indexmap::IndexSet;
use std::alloc::{AllocError, Global};

/// Adds each name that equals one in front of it.
pub fn add_repeated<T: Written>(
    alloc: Global,
    things: &[T],
    faults: &mut Faults,
) -> Result<(), AllocError>
    ensures { OnOk result (faults.new ≡ faults.old ++ twice (map T.written things.now)) }
{
    let mut seen = IndexSet::new(alloc);
    for thing in things {
        let name = thing.written();
        if seen.insert(name.text.copy()?)? {
            continue;
        }
        faults.push(Fault::NameTwice(name.pos))?;
    }
    Ok(())
}
