//! Calls that make the forest of a scope.

use crate::definitions::definitions;
use crate::programs::program_of;
use cat_except::{ExceptRefusal, forest};
use cat_pos::{ENTRIES_BOUND, Pos};
use cat_rows::{Arguments, Problem, add, show_numbers, show_pos};
use cat_scope::{Forest, ForestGroup, ForestTarget};
use std::alloc::{AllocError, Global};

/// The groups of each variable, or the refusal. A group is shown by the numbers of its definitions, and by those of the
/// groups that except it behind `<`.
pub fn forest_answer(alloc: Global, given: &mut Arguments<'_>) -> Result<String, Problem> {
    answer_of(alloc, given.rest())
}

/// The same of a chain of so many groups, each of which excepts the one before.
pub fn forest_chain_answer(alloc: Global, given: &mut Arguments<'_>) -> Result<String, Problem> {
    let mut text = String::from_str(alloc, "label g0 definition x")?;
    for last in 1..given.count()? {
        let excepted = last - 1;
        let next = format!(in alloc; "; label g{last} exception g{excepted} definition x")?;
        text.push_str(next.as_str())?;
    }
    answer_of(alloc, text.as_str())
}

fn answer_of(alloc: Global, text: &str) -> Result<String, Problem> {
    let defs = definitions(alloc, text)?;
    if defs.len() as u64 >= ENTRIES_BOUND {
        return Err(Problem::Unreadable);
    }
    let program = program_of(alloc, defs)?;
    match forest(alloc, &program, 0) {
        Ok(forest) => Ok(shown(alloc, &forest)?),
        Err(refusal) => refused(alloc, refusal),
    }
}

fn shown(alloc: Global, forest: &Forest) -> Result<String, AllocError> {
    let mut text = String::new(alloc);
    for target in forest.targets.as_slice() {
        add(&mut text, " | ", target_shown(alloc, target)?.as_str())?;
    }
    Ok(text)
}

fn target_shown(alloc: Global, target: &ForestTarget) -> Result<String, AllocError> {
    let name = if target.target.item == 0 { "x" } else { "y" };
    if target.groups.is_empty() {
        return format!(in alloc; "{name}: -");
    }
    let mut groups = String::new(alloc);
    for group in target.groups.as_slice() {
        add(&mut groups, "; ", group_shown(alloc, group)?.as_str())?;
    }
    format!(in alloc; "{name}: {groups}")
}

fn group_shown(alloc: Global, group: &ForestGroup) -> Result<String, AllocError> {
    let own = show_numbers(alloc, group.defs.as_slice())?;
    if group.excepted_by.is_empty() {
        return Ok(own);
    }
    let others = show_numbers(alloc, group.excepted_by.as_slice())?;
    format!(in alloc; "{own} < {others}")
}

fn refused(alloc: Global, refusal: ExceptRefusal) -> Result<String, Problem> {
    match refusal {
        ExceptRefusal::LabelUnknown(pos) => placed(alloc, "LabelUnknown", pos),
        ExceptRefusal::LabelSplit(pos) => placed(alloc, "LabelSplit", pos),
        ExceptRefusal::ExceptionAmbiguous(pos) => placed(alloc, "ExceptionAmbiguous", pos),
        ExceptRefusal::ExceptionCycle(pos) => placed(alloc, "ExceptionCycle", pos),
        ExceptRefusal::TooMany(pos) => placed(alloc, "TooMany", pos),
        ExceptRefusal::Memory => Err(Problem::Memory),
    }
}

fn placed(alloc: Global, what: &str, pos: Pos) -> Result<String, Problem> {
    let pos = show_pos(alloc, pos)?;
    Ok(format!(in alloc; "{what} {pos}")?)
}
