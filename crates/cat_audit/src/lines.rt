// The lines of a report.
ghost use Rattle.std.specs.Prelude.{◌≡◌, ◌<◌, IfOk, length, slice_get, string_bytes};
ghost use Rattle.cat_value.specs.declared.outcome.Outcome.{Outcome};
ghost use Rattle.cat_audit.specs.Called.{scope_name};
ghost use Rattle.cat_audit.specs.ReportLines.{called_line, finding_text, input_of, said, target_line, verdict_text};
ghost use Rattle.cat_audit.specs.RunsAgain.{IsReadBack, OfFinding, OfLine};

use crate::{CalledLine, Finding, Line, NamedLine, Verdict};
use cat_answer::{answer_text, fault_text, input_text, position_text};
use cat_pos::Files;
use cat_value::{Decls, Input};
use std::alloc::{AllocError, Global};

/// The word of a verdict.
pub fn verdict_text(verdict: Verdict) -> &'static str
    ensures { result.now ≡ verdict_text verdict }
{
    match verdict {
        Verdict::Found => "Found",
        Verdict::Masked => "Masked",
        Verdict::Undecided => "Undecided",
        Verdict::Complete => "Complete",
    }
}

/// The name of a scope, empty where there is none.
pub(crate) fn scope_name(decls: &Decls, scope: u32) -> &str
    ensures { result.now ≡ scope_name (slice_get decls.now.scopes scope) }
{
    match decls.scopes.get(scope as usize) {
        Some(scope) => scope.name.as_str(),
        None => "",
    }
}

/// The text of an input.
fn shown(alloc: Global, input: &Input, decls: &Decls, scope: u32) -> Result<String, AllocError>
    requires { scope < length decls.now.scopes }
    ensures text { IfOk result (λ text. string_bytes text ≡ input_of decls.now scope input.now) }
    ensures back { (o : Outcome) → IfOk result (λ text. IsReadBack decls.now scope input.now o) }
{
    input_text(alloc, input, decls, scope)
}

fn finding_text(
    alloc: Global,
    finding: &Finding,
    decls: &Decls,
    scope: u32,
    files: &Files,
) -> Result<String, AllocError>
    requires { scope < length decls.now.scopes }
    ensures text { IfOk result (λ text. string_bytes text ≡ finding_text decls.now scope files.now finding.now) }
    ensures back { IfOk result (λ text. OfFinding (IsReadBack decls.now scope) finding.now) }
{
    match finding {
        Finding::Found(outcome, input) => {
            let outcome = answer_text(alloc, outcome, decls, scope, files)?;
            let input = shown(alloc, input, decls, scope)?;
            format!(in alloc; "Found {outcome} with {input}")
        }
        Finding::Masked(kind, pos, input) => {
            let kind = fault_text(*kind);
            let pos = position_text(alloc, files, *pos)?;
            let input = shown(alloc, input, decls, scope)?;
            format!(in alloc; "Masked {kind} at {pos} with {input}")
        }
        Finding::Derived(pos, input, outcome) => {
            let pos = position_text(alloc, files, *pos)?;
            let input = shown(alloc, input, decls, scope)?;
            let outcome = answer_text(alloc, outcome, decls, scope, files)?;
            format!(in alloc; "Undecided derived at {pos} with {input} giving {outcome}")
        }
    }
}

fn said(
    alloc: Global,
    line: &Line,
    decls: &Decls,
    scope: u32,
    files: &Files,
    budget: u64,
) -> Result<String, AllocError>
    requires { scope < length decls.now.scopes }
    ensures text { IfOk result (λ text. string_bytes text ≡ said decls.now scope files.now budget line.now) }
    ensures back { IfOk result (λ text. OfLine (IsReadBack decls.now scope) line.now) }
{
    match line {
        Line::Covered => String::from_str(alloc, "Covered"),
        Line::Bad(finding) => finding_text(alloc, finding, decls, scope, files),
        Line::Budget => format!(in alloc; "Undecided budget {budget}"),
    }
}

/// The line of a target.
pub(crate) fn target_line(
    alloc: Global,
    line: &NamedLine,
    decls: &Decls,
    scope: u32,
    files: &Files,
    budget: u64,
) -> Result<String, AllocError>
    requires { scope < length decls.now.scopes }
    ensures text { IfOk result (λ text. string_bytes text ≡ target_line decls.now scope files.now budget line.now) }
    ensures back { IfOk result (λ text. OfLine (IsReadBack decls.now scope) line.now.line) }
{
    let name = line.name.as_str();
    let said = said(alloc, &line.line, decls, scope, files, budget)?;
    format!(in alloc; "{name}: {said}")
}

/// The line of a called scope.
#[tactic(auto, unfolding(crate::specs::ReportLines::called_line))]
pub(crate) fn called_line(
    alloc: Global,
    line: &CalledLine,
    decls: &Decls,
) -> Result<String, AllocError>
    ensures { IfOk result (λ text. string_bytes text ≡ called_line decls.now line.now) }
{
    let name = line.name.as_str();
    let scope = scope_name(decls, line.scope);
    let verdict = verdict_text(line.verdict);
    format!(in alloc; "{name}: Undecided called {scope} {verdict}")
}
