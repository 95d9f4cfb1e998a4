// Which definitions win nowhere.
ghost use Rattle.std.specs.Prelude.{◌≡◌, ◌<◌, ◌^◌, ◌++◌, List, IfOk, OnOk, filter, map};
ghost use Rattle.cat_pos.specs.declared.pos.Pos.{Pos as PosSeen};
ghost use Rattle.cat_dead.specs.Winners.{wins_nowhere, definitions_of};
ghost use Rattle.cat_dead.specs.inside.Keys.{key_of, IsAddedTo, HasKeys};

use cat_guard::{GuardDef, TableTarget};
use cat_pos::{Pos, Positions};
use std::alloc::{AllocError, Global};
use std::collections::BTreeSet;

/// So many numbers of places there are.
const PLACES: usize = 0x1_0000_0000;

/// One number for a position.
fn key(pos: Pos) -> usize
    ensures value { result ≡ key_of pos }
    ensures fits { pos.place < 2 ^ 32 }
{
    pos.line as usize * PLACES + pos.place as usize
}

/// Adds a position to a set of them.
fn add_key(keys: &mut BTreeSet<usize>, pos: Pos) -> Result<(), AllocError>
    ensures { OnOk result (IsAddedTo pos keys.old keys.new) }
{
    keys.insert(key(pos))?;
    Ok(())
}

/// Positions as a set.
fn keys_of(alloc: Global, positions: &[Pos]) -> Result<BTreeSet<usize>, AllocError>
    ensures { IfOk result (λ keys. HasKeys keys positions.now) }
{
    let mut keys = BTreeSet::new(alloc);
    for &pos in positions {
        add_key(&mut keys, pos)?;
    }
    Ok(keys)
}

/// Adds where those of some definitions stand that win nowhere.
fn push_dead(
    keys: &BTreeSet<usize>,
    definitions: &[GuardDef],
    dead: &mut Positions,
) -> Result<(), AllocError>
    ensures { (winners : List PosSeen) → HasKeys keys.now winners → OnOk result (dead.new
        ≡ dead.old ++ filter (wins_nowhere winners) (map (λ d. d.pos) definitions.now)) }
{
    for definition in definitions {
        if keys.contains(&key(definition.pos)) {
            continue;
        }
        dead.push(definition.pos)?;
    }
    Ok(())
}

/// Where those definitions of targets stand that win nowhere.
pub(crate) fn dead_among(
    alloc: Global,
    targets: &[TableTarget],
    winners: &[Pos],
) -> Result<Positions, AllocError>
    ensures { IfOk result (λ dead. dead ≡ filter (wins_nowhere winners.now) (definitions_of targets.now)) }
{
    let keys = keys_of(alloc, winners)?;
    let mut dead = Positions::new(alloc);
    for target in targets {
        push_dead(&keys, target.defs.as_slice(), &mut dead)?;
    }
    Ok(dead)
}
