// What the judged leaves of a tree tell: the first open one, and the winners.
ghost use Rattle.std.specs.Prelude.{◌≡◌, ◌++◌, [], IfOk, IfErr, OnOk, slice_get};
ghost use Rattle.cat_cert.specs.inside.Checkable.{NamesFirst};
ghost use Rattle.cat_dead.specs.Winners.{place_of};
ghost use Rattle.cat_dead.specs.inside.Told.{opened, winners_among, HaveLines};

use crate::judged::{JudgedLeaf, LeafJudgement};
use cat_cert::CertRefusal;
use cat_guard::{GuardDefs, TableTarget};
use cat_pos::Positions;
use std::alloc::AllocError;

/// Adds where the definition of that number stands.
fn push_place(definitions: &GuardDefs, number: u32, won: &mut Positions) -> Result<(), AllocError>
    ensures { OnOk result (won.new ≡ won.old ++ place_of (slice_get definitions.now number)) }
{
    match definitions.get(number as usize) {
        Some(definition) => won.push(definition.pos),
        None => Ok(()),
    }
}

/// Adds where the winners of a tree's leaves stand, where none of them is open; `head` is the line before its nodes.
pub(crate) fn add_winners(
    target: &TableTarget,
    head: usize,
    leaves: &[JudgedLeaf],
    won: &mut Positions,
) -> Result<(), CertRefusal>
    requires { HaveLines head leaves.now }
    ensures first { IfErr result (NamesFirst (opened head leaves.now)) }
    ensures none { IfOk result (λ u. opened head leaves.now ≡ []) }
    ensures won { OnOk result (won.new ≡ won.old ++ winners_among target.now leaves.now) }
{
    for leaf in leaves {
        match leaf.judged {
            LeafJudgement::Open => return Err(CertRefusal::NotCovered(head + 1 + leaf.node)),
            LeafJudgement::Wins(number) => {
                push_place(&target.defs, number, won)?;
            }
            LeafJudgement::Nothing | LeafJudgement::NoWinner => {}
        }
    }
    Ok(())
}
