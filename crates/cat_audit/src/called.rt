// The lines of the scopes that a scope calls.
ghost use Rattle.std.specs.Prelude.{◌≡◌, ◌<◌, ◌++◌, length, slice_get, IfOk, OnOk};
ghost use Rattle.cat_audit.specs.Called.{called_line, called_lines, item_line, item_lines, scope_lines, scope_name};
ghost use Rattle.cat_audit.specs.inside.Underway.{verdict_at};

use crate::report::{CalledLine, CalledLines, Verdict};
use cat_depend::calls_of;
use cat_pos::{List, Text};
use cat_scope::{Program, programs_are_well_formed};
use cat_value::{ItemDecl, Kind, Scope};
use std::alloc::{AllocError, Global};

/// The verdict of a scope, by a list that has one for each.
fn verdict_at(verdicts: &[Verdict], scope: u32) -> Verdict
    ensures { result ≡ verdict_at verdicts.now scope }
{
    match verdicts.get(scope as usize) {
        Some(verdict) => *verdict,
        None => Verdict::Undecided,
    }
}

/// Adds the line of a called scope, unless it is Complete.
fn add_line(
    lines: &mut CalledLines,
    name: Text,
    scope: u32,
    verdict: Verdict,
) -> Result<(), AllocError>
    ensures { OnOk result (lines.new ≡ lines.old ++ called_line name scope verdict) }
{
    match verdict {
        Verdict::Complete => Ok(()),
        _ => lines.push(CalledLine {
            name,
            scope,
            verdict,
        }),
    }
}

/// Adds the line of an item, where it is a called scope.
fn add_item(
    lines: &mut CalledLines,
    name: &Text,
    kind: Kind,
    verdicts: &[Verdict],
) -> Result<(), AllocError>
    ensures { OnOk result (lines.new ≡ lines.old ++ item_line (verdict_at verdicts.now) name.now kind) }
{
    match kind {
        Kind::Called(scope) => {
            let name = name.copy()?;
            add_line(lines, name, scope, verdict_at(verdicts, scope))
        }
        _ => Ok(()),
    }
}

/// Adds the lines of items.
fn add_items(
    lines: &mut CalledLines,
    items: &[ItemDecl],
    verdicts: &[Verdict],
) -> Result<(), AllocError>
    ensures { OnOk result (lines.new ≡ lines.old ++ item_lines (verdict_at verdicts.now) items.now) }
{
    for item in items {
        add_item(lines, &item.name, item.kind, verdicts)?;
    }
    Ok(())
}

/// The name of a scope, empty where there is none.
fn scope_name(alloc: Global, scopes: &[Scope], number: u32) -> Result<Text, AllocError>
    ensures { IfOk result (λ name. name ≡ scope_name (slice_get scopes.now number)) }
{
    match scopes.get(number as usize) {
        Some(scope) => scope.name.copy(),
        None => Text::from_str(alloc, ""),
    }
}

/// Adds the lines of scopes.
fn add_scopes(
    alloc: Global,
    lines: &mut CalledLines,
    scopes: &[Scope],
    numbers: &[u32],
    verdicts: &[Verdict],
) -> Result<(), AllocError>
    ensures { OnOk result (lines.new ≡ lines.old ++ scope_lines (verdict_at verdicts.now) scopes.now numbers.now) }
{
    for &number in numbers {
        let name = scope_name(alloc, scopes, number)?;
        add_line(lines, name, number, verdict_at(verdicts, number))?;
    }
    Ok(())
}

/// The lines of the scopes that a scope calls and that aren't Complete. Those in scope calls are the ones that it would
/// call if it had no items.
pub(crate) fn called_lines(
    alloc: Global,
    program: &Program,
    scope: u32,
    verdicts: &[Verdict],
) -> Result<CalledLines, AllocError>
    requires { scope < length program.now.bodies }
    ensures { IfOk result (λ lines. lines ≡ called_lines program.now (verdict_at verdicts.now) scope) }
{
    programs_are_well_formed(program);
    let decls = program.decls();
    let decl = decls.scopes.at(scope as usize);
    let body = program.bodies.at(scope as usize);
    let no_items: List<ItemDecl> = List::new(alloc);
    let in_calls = calls_of(
        alloc,
        no_items.as_slice(),
        body.source.as_slice(),
        body.defs.as_slice(),
        body.assertions.as_slice(),
    )?;
    let mut lines = List::new(alloc);
    add_items(&mut lines, decl.items.as_slice(), verdicts)?;
    add_scopes(
        alloc,
        &mut lines,
        decls.scopes.as_slice(),
        in_calls.as_slice(),
        verdicts,
    )?;
    Ok(lines)
}
