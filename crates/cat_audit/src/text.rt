// The text of a report.
ghost use Rattle.std.specs.Prelude.{◌≡◌, ◌<◌, ◌++◌, ◌∷◌, [], IfOk, OnOk, length, string_bytes};
ghost use Rattle.cat_scope.specs.Names.{AllHave};
ghost use Rattle.cat_audit.specs.ReportTexts.{called_lines, line_before, report_text, section_text, target_lines};
ghost use Rattle.cat_audit.specs.RunsAgain.{AreReadBack, IsReadBack, OfLines};

use crate::lines::{called_line, scope_name, target_line, verdict_text};
use crate::{CalledLine, NamedLine, Section};
use cat_pos::Files;
use cat_value::Decls;
use std::alloc::{AllocError, Global};

/// Writes a line with its line feed.
fn push_line(text: &mut String, line: &str) -> Result<(), AllocError>
    ensures { OnOk result (string_bytes text.new ≡ string_bytes text.old ++ line_before line.now []) }
{
    text.push_str(line)?;
    text.push_str("\n")
}

/// Writes the lines of targets.
fn push_targets(
    alloc: Global,
    text: &mut String,
    lines: &[NamedLine],
    decls: &Decls,
    scope: u32,
    files: &Files,
    budget: u64,
) -> Result<(), AllocError>
    requires { scope < length decls.now.scopes }
    ensures text { OnOk result (string_bytes text.new
        ≡ string_bytes text.old ++ target_lines decls.now scope files.now budget lines.now) }
    ensures back { OnOk result (OfLines (IsReadBack decls.now scope) lines.now) }
{
    for line in lines {
        let line = target_line(alloc, line, decls, scope, files, budget)?;
        push_line(text, line.as_str())?;
    }
    Ok(())
}

/// Writes the lines of called scopes.
fn push_called(
    alloc: Global,
    text: &mut String,
    lines: &[CalledLine],
    decls: &Decls,
) -> Result<(), AllocError>
    ensures { OnOk result (string_bytes text.new ≡ string_bytes text.old ++ called_lines decls.now lines.now) }
{
    for line in lines {
        let line = called_line(alloc, line, decls)?;
        push_line(text, line.as_str())?;
    }
    Ok(())
}

/// Writes a section.
fn push_section(
    alloc: Global,
    text: &mut String,
    section: &Section,
    decls: &Decls,
    files: &Files,
    budget: u64,
) -> Result<(), AllocError>
    requires { section.now.scope < length decls.now.scopes }
    ensures text { OnOk result (string_bytes text.new
        ≡ string_bytes text.old ++ section_text decls.now files.now budget section.now) }
    ensures back { OnOk result (AreReadBack decls.now section.now) }
{
    let name = scope_name(decls, section.scope);
    let first = format!(in alloc; "audit {name}")?;
    push_line(text, first.as_str())?;
    let lines = section.lines.as_slice();
    push_targets(alloc, text, lines, decls, section.scope, files, budget)?;
    push_called(alloc, text, section.called.as_slice(), decls)?;
    let verdict = verdict_text(section.verdict);
    let last = format!(in alloc; "verdict {verdict}")?;
    push_line(text, last.as_str())
}

/// The text of an audit's sections, in which the search for a target made at most `budget` leaves. Each line ends with
/// a line feed. An outcome is told as a run tells it.
pub fn report_text(
    alloc: Global,
    sections: &[Section],
    decls: &Decls,
    files: &Files,
    budget: u64,
) -> Result<String, AllocError>
    requires { AllHave (λ s. s.scope < length decls.now.scopes) sections.now }
    ensures text { IfOk result (λ text. string_bytes text ≡ report_text decls.now files.now budget sections.now) }
    ensures back { IfOk result (λ text. AllHave (AreReadBack decls.now) sections.now) }
{
    let mut text = String::new(alloc);
    for section in sections {
        push_section(alloc, &mut text, section, decls, files, budget)?;
    }
    Ok(text)
}
