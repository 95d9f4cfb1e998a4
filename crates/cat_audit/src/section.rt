// The section of one scope.
ghost use Rattle.std.specs.Prelude.{◌≡◌, ◌<◌, IfOk, length};
ghost use Rattle.cat_guard.specs.Tables.{TablesScope};
ghost use Rattle.cat_machine.specs.ForPrograms.{IsCodeFor};
ghost use Rattle.cat_audit.specs.Sections.{is_found, is_masked, is_undecided, any_line, verdict_of};
ghost use Rattle.cat_audit.specs.inside.Underway.{HasLines, MakesSection};

use crate::called::called_lines;
use crate::report::{CalledLine, CaseTrees, NamedLine, NamedLines, Section, Verdict};
use crate::{Finding, Line, TargetLine, target_line};
use cat_code::Code;
use cat_guard::{Table, whole_region};
use cat_pool::Pool;
use cat_pos::List;
use cat_scope::Program;
use std::alloc::{AllocError, Global};

fn is_found(line: &Line) -> bool
    ensures { result ≡ is_found line.now }
{
    matches!(line, Line::Bad(Finding::Found(_, _)))
}

fn is_masked(line: &Line) -> bool
    ensures { result ≡ is_masked line.now }
{
    matches!(line, Line::Bad(Finding::Masked(_, _, _)))
}

fn is_undecided(line: &Line) -> bool
    ensures { result ≡ is_undecided line.now }
{
    matches!(line, Line::Bad(Finding::Derived(_, _, _)) | Line::Budget)
}

fn any_found(lines: &[NamedLine]) -> bool
    ensures { result ≡ any_line is_found lines.now }
{
    lines.iter().any(|line| is_found(&line.line))
}

fn any_masked(lines: &[NamedLine]) -> bool
    ensures { result ≡ any_line is_masked lines.now }
{
    lines.iter().any(|line| is_masked(&line.line))
}

fn any_undecided(lines: &[NamedLine]) -> bool
    ensures { result ≡ any_line is_undecided lines.now }
{
    lines.iter().any(|line| is_undecided(&line.line))
}

/// The verdict that lines have.
fn verdict_of(lines: &[NamedLine], called: &[CalledLine]) -> Verdict
    ensures { result ≡ verdict_of lines.now called.now }
{
    if any_found(lines) {
        return Verdict::Found;
    }
    if any_masked(lines) {
        return Verdict::Masked;
    }
    if any_undecided(lines) {
        return Verdict::Undecided;
    }
    match called {
        [] => Verdict::Complete,
        [_, ..] => Verdict::Undecided,
    }
}

/// The lines of a table's targets. Their trees go behind others.
fn target_lines(
    alloc: Global,
    program: &Program,
    code: &Code,
    pool: &mut Pool,
    table: &Table,
    budget: u64,
    trees: &mut CaseTrees,
) -> Result<NamedLines, AllocError>
    requires tabled { TablesScope program.now table.now.scope table.now }
    requires code { ∥ IsCodeFor program.now code.now ∥₁ }
    requires budget { 0 < budget }
    ensures { IfOk result (HasLines program.now table.now budget trees.old trees.new) }
{
    let mut lines = List::new(alloc);
    let mut whole = whole_region(alloc, table, table.atoms.len())?;
    for (number, target) in table.targets.as_slice().iter().enumerate() {
        let Ok(number) = u32::try_from(number) else {
            return Err(AllocError);
        };
        let (made, back) = target_line(alloc, program, code, pool, table, number, budget, whole)?;
        whole = back;
        let TargetLine { line, tree } = made;
        let name = target.name.copy()?;
        lines.push(NamedLine { name, line })?;
        trees.push(tree)?;
    }
    Ok(lines)
}

/// The section of a table's scope, where called scopes have these verdicts. The trees of its targets go behind others.
pub(crate) fn section_of(
    alloc: Global,
    program: &Program,
    code: &Code,
    pool: &mut Pool,
    table: &Table,
    budget: u64,
    verdicts: &[Verdict],
    trees: &mut CaseTrees,
) -> Result<Section, AllocError>
    requires tabled { TablesScope program.now table.now.scope table.now }
    requires scope { table.now.scope < length program.now.bodies }
    requires code { ∥ IsCodeFor program.now code.now ∥₁ }
    requires budget { 0 < budget }
    ensures { IfOk result (MakesSection program.now budget verdicts.now table.now trees.old trees.new) }
{
    let lines = target_lines(alloc, program, code, pool, table, budget, trees)?;
    let called = called_lines(alloc, program, table.scope, verdicts)?;
    let verdict = verdict_of(lines.as_slice(), called.as_slice());
    Ok(Section {
        scope: table.scope,
        lines,
        called,
        verdict,
    })
}
