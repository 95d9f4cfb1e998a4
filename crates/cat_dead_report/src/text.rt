// The text of a report.
ghost use Rattle.std.specs.Prelude.{◌≡◌, ◌<◌, ◌++◌, ◌∷◌, [], IfOk, OnOk, length, string_bytes};
ghost use Rattle.std.specs.Option.{option_copied};
ghost use Rattle.cat_cert.specs.Texts.{text_of};
ghost use Rattle.cat_dead_report.specs.ReportLines as words;
ghost use Rattle.cat_dead_report.specs.inside.Writing.{line_of};

use crate::line::{DeadLine, TargetLines};
use cat_answer::{answer_text, input_text, position_text};
use cat_guard::{GuardDef, Table, TableTarget};
use cat_pos::Files;
use cat_value::Decls;
use std::alloc::{AllocError, Global};

/// What a line says.
fn said(
    alloc: Global,
    line: &DeadLine,
    decls: &Decls,
    scope: u32,
    files: &Files,
    budget: u64,
) -> Result<String, AllocError>
    requires { scope < length decls.now.scopes }
    ensures { IfOk result (λ text. string_bytes text ≡ words.said decls.now scope files.now budget line.now) }
{
    match line {
        DeadLine::Decides(input) => {
            let input = input_text(alloc, input, decls, scope)?;
            format!(in alloc; "decides with {input}")
        }
        DeadLine::Masked(input, outcome) => {
            let input = input_text(alloc, input, decls, scope)?;
            let outcome = answer_text(alloc, outcome, decls, scope, files)?;
            format!(in alloc; "Masked with {input} giving {outcome}")
        }
        DeadLine::Derived(at, input, outcome) => {
            let at = position_text(alloc, files, *at)?;
            let input = input_text(alloc, input, decls, scope)?;
            let outcome = answer_text(alloc, outcome, decls, scope, files)?;
            format!(in alloc; "Undecided derived at {at} with {input} giving {outcome}")
        }
        DeadLine::Budget => format!(in alloc; "Undecided budget {budget}"),
        DeadLine::Never => String::from_str(alloc, "never decides"),
    }
}

/// The line of a definition of a target.
fn dead_line(
    alloc: Global,
    target: &TableTarget,
    definition: &GuardDef,
    line: &DeadLine,
    decls: &Decls,
    scope: u32,
    files: &Files,
    budget: u64,
) -> Result<String, AllocError>
    requires { scope < length decls.now.scopes }
    ensures { IfOk result (λ text. string_bytes text
        ≡ words.dead_line decls.now scope files.now budget target.now definition.now line.now) }
{
    let name = target.name.as_str();
    let pos = position_text(alloc, files, definition.pos)?;
    let said = said(alloc, line, decls, scope, files, budget)?;
    format!(in alloc; "{name} at {pos}: {said}")
}

/// The line of the definition of that number.
fn line_of(found: &TargetLines, number: usize) -> Option<&DeadLine>
    ensures { option_copied result ≡ line_of found.now number }
{
    found.lines.get(*found.places.get(number)?)
}

/// Writes a line with its line feed.
fn push_line(text: &mut String, line: &str) -> Result<(), AllocError>
    ensures { OnOk result (string_bytes text.new ≡ string_bytes text.old ++ (line.now ++ 10 ∷ [])) }
{
    text.push_str(line)?;
    text.push_str("\n")
}

/// Writes a line for each definition of a target.
fn push_target(
    alloc: Global,
    text: &mut String,
    target: &TableTarget,
    found: &TargetLines,
    decls: &Decls,
    scope: u32,
    files: &Files,
    budget: u64,
) -> Result<(), AllocError>
    requires { scope < length decls.now.scopes }
    ensures { OnOk result (string_bytes text.new ≡ string_bytes text.old ++ text_of (words.target_lines decls.now scope
        files.now budget target.now target.now.defs (words.lines_of found.now))) }
{
    for (number, definition) in target.defs.as_slice().iter().enumerate() {
        let Some(line) = line_of(found, number) else {
            continue;
        };
        let line = dead_line(alloc, target, definition, line, decls, scope, files, budget)?;
        push_line(text, line.as_str())?;
    }
    Ok(())
}

/// Writes a line for each definition of a table's targets.
pub(crate) fn push_targets(
    alloc: Global,
    text: &mut String,
    table: &Table,
    lines: &[TargetLines],
    decls: &Decls,
    files: &Files,
    budget: u64,
) -> Result<(), AllocError>
    requires scope { table.now.scope < length decls.now.scopes }
    requires count { length lines.now ≡ length table.now.targets }
    ensures { OnOk result (string_bytes text.new ≡ string_bytes text.old ++ text_of (words.all_lines decls.now
        table.now.scope files.now budget table.now.targets lines.now)) }
{
    for number in 0..lines.len() {
        let target = table.targets.at(number);
        let scope = table.scope;
        push_target(
            alloc,
            text,
            target,
            &lines[number],
            decls,
            scope,
            files,
            budget,
        )?;
    }
    Ok(())
}
