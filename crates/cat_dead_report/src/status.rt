// With which status a report ends.
ghost use Rattle.std.specs.Prelude.{◌≡◌, slice_get};
ghost use Rattle.std.specs.List.{list_all, list_any};
ghost use Rattle.cat_dead_report.specs.DeadReports as reports;
ghost use Rattle.cat_dead_report.specs.ReportLines.{lines_of};

use crate::line::{DeadLine, TargetLines};

fn is_never(found: &TargetLines, place: usize) -> bool
    ensures { result ≡ reports.is_never (slice_get found.now.lines place) }
{
    matches!(found.lines.get(place), Some(DeadLine::Never))
}

fn is_decider(found: &TargetLines, place: usize) -> bool
    ensures { result ≡ reports.is_decider (slice_get found.now.lines place) }
{
    matches!(found.lines.get(place), Some(DeadLine::Decides(_)))
}

/// Whether the line of one of some places is `never decides`.
fn never_among(found: &TargetLines, places: &[usize]) -> bool
    ensures { result ≡ list_any (λ place. reports.is_never (slice_get found.now.lines place)) places.now }
{
    places.iter().any(|place| is_never(found, *place))
}

/// Whether that of each of them is `decides`.
fn deciders_at(found: &TargetLines, places: &[usize]) -> bool
    ensures { result ≡ list_all (λ place. reports.is_decider (slice_get found.now.lines place)) places.now }
{
    places.iter().all(|place| is_decider(found, *place))
}

fn has_never(found: &TargetLines) -> bool
    ensures { result ≡ list_any reports.is_never (lines_of found.now) }
{
    never_among(found, found.places.as_slice())
}

fn has_deciders(found: &TargetLines) -> bool
    ensures { result ≡ list_all reports.is_decider (lines_of found.now) }
{
    deciders_at(found, found.places.as_slice())
}

fn some_has_never(lines: &[TargetLines]) -> bool
    ensures { result ≡ list_any (λ f. list_any reports.is_never (lines_of f)) lines.now }
{
    lines.iter().any(|found| has_never(found))
}

fn all_have_deciders(lines: &[TargetLines]) -> bool
    ensures { result ≡ list_all (λ f. list_all reports.is_decider (lines_of f)) lines.now }
{
    lines.iter().all(|found| has_deciders(found))
}

pub(crate) fn status_of(lines: &[TargetLines]) -> u8
    ensures { result ≡ reports.status_of lines.now }
{
    if some_has_never(lines) {
        return 6;
    }
    if all_have_deciders(lines) { 0 } else { 7 }
}
