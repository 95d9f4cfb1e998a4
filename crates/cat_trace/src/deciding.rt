// The lines of a log.
ghost use Rattle.std.specs.Prelude.{◌≡◌, ◌++◌, IfOk, OnOk, string_bytes};
ghost use Rattle.std.specs.Option.{option_copied};
ghost use Rattle.cat_machine.specs.States.{decided};
ghost use Rattle.cat_trace.specs.Over.{last_of_first};
ghost use Rattle.cat_trace.specs.Traces as words;
ghost use Rattle.cat_trace.specs.inside.Entries.{log_line, log_text, place_of};

use crate::placing::{Placed, places};
use cat_answer::{position_text, target_text};
use cat_code::{Code, Tables};
use cat_machine::{Log, LogEntry};
use cat_pos::{Files, List, Pieces};
use cat_weave::{Heading, Headings};
use std::alloc::{AllocError, Global};
use std::fmt::Write;

/// The last of the first so many headings.
fn last_of_first(count: usize, headings: &Headings) -> Option<&Heading>
    ensures { option_copied result ≡ last_of_first count headings.now }
{
    if count == 0 {
        return None;
    }
    headings.get(count - 1)
}

/// What stands behind a definition: the heading over it.
fn under_text(alloc: Global, heading: Option<&Heading>) -> Result<String, AllocError>
    ensures { IfOk result (λ text. string_bytes text ≡ words.under_text (option_copied heading.entry)) }
{
    match heading {
        None => Ok(String::new(alloc)),
        Some(heading) => {
            let heading = heading.text.as_str();
            format!(in alloc; " under {heading}")
        }
    }
}

/// What decided a judging.
fn by_text(
    alloc: Global,
    place: Option<Placed>,
    files: &Files,
    headings: &Headings,
) -> Result<String, AllocError>
    ensures { IfOk result (λ text. string_bytes text ≡ words.by_text files.now headings.now place) }
{
    let Some(
        Placed {
            pos,
            headings: count,
        },
    ) = place
    else {
        return String::from_str(alloc, "none");
    };
    let pos = position_text(alloc, files, pos)?;
    let under = under_text(alloc, last_of_first(count, headings))?;
    format!(in alloc; "{pos}{under}")
}

/// Where a definition stands, where there is one.
fn place_of(places: &List<Placed>, definition: Option<u32>) -> Option<Placed>
    ensures { result ≡ place_of places.now definition }
{
    match definition {
        None => None,
        Some(definition) => places.get(definition as usize).copied(),
    }
}

/// Writes what is decided, and by what.
#[tactic(auto, unfolding(crate::specs::Traces::decided_line))]
fn push_decided(text: &mut String, place: &str, by: &str) -> Result<(), AllocError>
    ensures { OnOk result (string_bytes text.new ≡ string_bytes text.old ++ words.decided_line place.now by.now) }
{
    write!(text, "{place} by {by}\n")
}

/// Writes an entry of a log.
fn push_entry(
    alloc: Global,
    text: &mut String,
    entry: LogEntry,
    tables: &Tables,
    files: &Files,
    headings: &Headings,
    places: &List<Placed>,
) -> Result<(), AllocError>
    ensures { OnOk result (string_bytes text.new
        ≡ string_bytes text.old ++ log_line tables.now files.now headings.now places.now entry) }
{
    let Some(target) = tables.targets.get(entry.target as usize) else {
        return Ok(());
    };
    let place = target_text(alloc, target.target, tables.decls.get())?;
    let by = by_text(alloc, place_of(places, entry.definition), files, headings)?;
    push_decided(text, place.as_str(), by.as_str())
}

/// The lines of a log, where it is known where each definition stands.
fn log_text(
    alloc: Global,
    log: &[LogEntry],
    tables: &Tables,
    files: &Files,
    headings: &Headings,
    places: &List<Placed>,
) -> Result<String, AllocError>
    ensures { IfOk result (λ text. string_bytes text
        ≡ log_text tables.now files.now headings.now places.now log.now) }
{
    let mut text = String::new(alloc);
    for &entry in log {
        push_entry(alloc, &mut text, entry, tables, files, headings, places)?;
    }
    Ok(text)
}

/// A line for each entry of a log of the code, each with its line feed: what was decided, by which definition of the
/// sources, and under which heading that stands. It takes time in proportion to the log, the pieces and the headings,
/// and for each definition a logarithm of the count of pieces.
pub fn trace_lines(
    alloc: Global,
    code: &Code,
    files: &Files,
    pieces: &Pieces,
    headings: &Headings,
    log: &Log,
) -> Result<String, AllocError>
    ensures { IfOk result (λ text. string_bytes text ≡ words.trace_text code.now.tables.decls
        (record { files = files.now; pieces = pieces.now; headings = headings.now })
        (decided code.now.tables log.now)) }
{
    let tables = &code.tables;
    let definitions = tables.definitions.as_slice();
    let placed = places(alloc, definitions, pieces.as_slice(), headings.as_slice())?;
    log_text(alloc, log.as_slice(), tables, files, headings, &placed)
}
