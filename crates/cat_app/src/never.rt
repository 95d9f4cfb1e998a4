// The lines of definitions that decide in no run.
ghost use Rattle.std.specs.Prelude.{◌≡◌, ◌++◌, [], IfOk, OnOk, codes, string_bytes};
ghost use Rattle.cat_app.specs.DeadChecks.{never_line};
ghost use Rattle.cat_app.specs.Lines.{line};
ghost use Rattle.cat_app.specs.inside.Beside.{left_beside, lines_beside, target_beside};
ghost use Rattle.cat_app.specs.inside.Says.{Says};

use crate::Status;
use crate::reply::Reply;
use cat_answer::position_text;
use cat_dead::is_same;
use cat_guard::{Table, TableTarget};
use cat_pos::{Files, Pos};
use std::alloc::{AllocError, Global};

/// Writes the line of a definition of a target.
fn push_line(
    alloc: Global,
    text: &mut String,
    files: &Files,
    name: &str,
    pos: Pos,
) -> Result<(), AllocError>
    ensures { OnOk result (string_bytes text.new ≡ string_bytes text.old ++ never_line files.now name.now pos) }
{
    let position = position_text(alloc, files, pos)?;
    let line = format!(in alloc; "{name} at {position}: never decides\n")?;
    text.push_str(line.as_str())
}

/// Writes the lines of those definitions of a target that stand at the next of some positions, and gives the positions
/// behind them.
fn push_target<'a>(
    alloc: Global,
    text: &mut String,
    files: &Files,
    target: &TableTarget,
    mut dead: &'a [Pos],
) -> Result<&'a [Pos], AllocError>
    ensures text { OnOk result (string_bytes text.new
        ≡ string_bytes text.old ++ target_beside files.now target.now.name target.now.defs dead.entry.now) }
    ensures rest { IfOk result (λ rest. rest.now ≡ left_beside target.now.defs dead.entry.now) }
{
    for definition in target.defs.as_slice() {
        let Some((next, rest)) = dead.split_first() else {
            return Ok(dead);
        };
        if !is_same(definition.pos, *next) {
            continue;
        }
        push_line(alloc, text, files, target.name.as_str(), definition.pos)?;
        dead = rest;
    }
    Ok(dead)
}

/// Writes the lines of those definitions of targets that stand at some positions, which are in the same order.
fn push_targets(
    alloc: Global,
    text: &mut String,
    files: &Files,
    targets: &[TableTarget],
    mut dead: &[Pos],
) -> Result<(), AllocError>
    ensures { OnOk result (string_bytes text.new
        ≡ string_bytes text.old ++ lines_beside files.now targets.now dead.entry.now) }
{
    for target in targets {
        dead = push_target(alloc, text, files, target, dead)?;
    }
    Ok(())
}

/// The definitions of a table that never decide, by where they stand, and a yes.
pub(crate) fn say_never(
    alloc: Global,
    files: &Files,
    table: &Table,
    dead: &[Pos],
) -> Result<Reply, AllocError>
    ensures { IfOk result (Says Status.Fine
        (lines_beside files.now table.now.targets dead.now ++ line (codes "Yes") [])) }
{
    let mut text = String::new(alloc);
    push_targets(alloc, &mut text, files, table.targets.as_slice(), dead)?;
    text.push_str("Yes\n")?;
    Ok(Reply {
        status: Status::Fine,
        text,
    })
}
