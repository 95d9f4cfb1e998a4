// Checks a certificate of dead definitions.
ghost use Rattle.std.specs.Prelude.{IfOk, IfErr};
ghost use Rattle.cat_guard.specs.Tables.{TablesScope};
ghost use Rattle.cat_dead.specs.Checked.{IsDeadChecked, HasDeadCause};
ghost use Rattle.cat_dead.specs.NeverDecides.{NeverDecide};

use crate::checking::winners_in;
use crate::laws::{what_is_never_held_never_decides, what_wins_nowhere_is_never_held};
use crate::reading::read_dead;
use crate::winning::dead_among;
use cat_cert::CertRefusal;
use cat_guard::Table;
use cat_pos::Positions;
use cat_scope::Program;
use std::alloc::Global;

/// Where those definitions of a scope stand that decide in no run, by a certificate of them: for each target a tree of
/// which no leaf is open and none has that definition as its winner. It costs the reading of the text, and for each
/// target a walk through its tree.
pub fn check_dead(
    alloc: Global,
    program: &Program,
    table: &Table,
    bytes: &[u8],
) -> Result<Positions, CertRefusal>
    requires { TablesScope program.now table.now.scope table.now }
    ensures dead { IfOk result (NeverDecide program.now table.now) }
    ensures checked { IfOk result (IsDeadChecked table.now bytes.now) }
    ensures cause { IfErr result (HasDeadCause table.now bytes.now) }
{
    what_wins_nowhere_is_never_held(table);
    what_is_never_held_never_decides(program, table);
    let certificate = read_dead(alloc, table, bytes)?;
    let winners = winners_in(alloc, table, certificate.trees.as_slice())?;
    let dead = dead_among(alloc, table.targets.as_slice(), winners.as_slice())?;
    Ok(dead)
}
