// A drill: a source of so many bands, its runs, and its audit.
ghost use Rattle.std.specs.Prelude.{◌≡◌, ◌<◌, ◌≤◌, IfOk, Some, length, string_bytes};
ghost use Rattle.cat_io.specs.PureShelf.{shelved_of};
ghost use Rattle.cat_scope.specs.Named.{number_named};
ghost use Rattle.cat_weave.specs.Causes.{AreReadableTogether, HasEnding};
ghost use Rattle.cat_weave.specs.Gathered.{Whole};
ghost use Rattle.cat_build.specs.Built.{IsBuiltOf};
ghost use Rattle.cat_app.specs.Limits.{most_bands, runs};
ghost use Rattle.cat_app.specs.Runs.{HaveSum};
ghost use Rattle.cat_app.specs.Drills.{HasLine, bands_request, bands_shelf};
ghost use Rattle.cat_app.specs.inside.SaysOfBands.{GathersBands, MaySayOfBands, SaysLine};

use crate::audited::{last_verdict, report_of};
use crate::ran::tell;
use crate::reply::Reply;
use crate::texts::{no_scope, refuse_gathering, refuse_input, refuse_source};
use crate::{Ran, Status, drill_source, leaf_count, run_all};
use cat_audit::verdict_text;
use cat_build::{BuildRefusal, Built, build};
use cat_io::PureShelf;
use cat_weave::{GatherRefusal, Source, gather};
use std::alloc::{AllocError, Global};

/// The shelf that has the source of so many bands alone.
fn shelf_of(alloc: Global, bands: u32) -> Result<PureShelf, AllocError>
    requires some { 1 ≤ bands }
    requires most { bands ≤ most_bands }
    ensures { IfOk result (λ shelf. shelved_of shelf ≡ bands_shelf bands) }
{
    let text = drill_source(alloc, bands)?;
    let name = String::from_str(alloc, "none")?;
    let mut files = Vec::new(alloc);
    files.push((name, text.into_bytes()))?;
    Ok(PureShelf::new(alloc, files))
}

/// Gathers the source of so many bands. It includes no file and is short, so that none is missing, fails or is too
/// large: in the place of such a refusal want of memory is passed on.
fn gather_bands(alloc: Global, bands: u32) -> Result<Source, GatherRefusal>
    requires some { 1 ≤ bands }
    requires most { bands ≤ most_bands }
    ensures { GathersBands bands result }
{
    let mut shelf = shelf_of(alloc, bands)?;
    match gather(alloc, &mut shelf, "none") {
        Ok(source) => Ok(source),
        Err(GatherRefusal::NotUtf8(name, pos)) => Err(GatherRefusal::NotUtf8(name, pos)),
        Err(GatherRefusal::FenceOpen(name, pos)) => Err(GatherRefusal::FenceOpen(name, pos)),
        Err(GatherRefusal::IncludeTwice(name, pos)) => Err(GatherRefusal::IncludeTwice(name, pos)),
        Err(
            GatherRefusal::Missing(_)
            | GatherRefusal::ReadFault(_)
            | GatherRefusal::TooLarge(_)
            | GatherRefusal::Memory,
        ) => Err(GatherRefusal::Memory),
    }
}

/// The line of a drill whose runs each have a value, with an audit of its scope.
fn audit_bands(
    alloc: Global,
    bands: u32,
    source: &Source,
    built: &Built,
    scope: u32,
    sum: i64,
) -> Result<Reply, AllocError>
    requires some { 1 ≤ bands }
    requires built { IsBuiltOf source.now.pieces built.now }
    requires scope { scope < length built.now.program.decls.scopes }
    requires sum { HaveSum built.now.program scope bands runs sum }
    ensures { IfOk result (SaysLine bands source.now built.now.program scope) }
{
    let report = report_of(alloc, source, built, scope, bands)?;
    let leaves = leaf_count(&report.trees)?;
    let verdict = verdict_text(last_verdict(report.sections.as_slice()));
    let text = format!(in alloc; "bands {bands} runs 1000 sum {sum} leaves {leaves} {verdict}\n")?;
    Ok(Reply {
        status: Status::Fine,
        text,
    })
}

/// Runs the scope of the bands, and audits it.
fn drill_scope(
    alloc: Global,
    bands: u32,
    source: &Source,
    built: &Built,
    scope: u32,
) -> Result<Reply, AllocError>
    requires some { 1 ≤ bands }
    requires most { bands ≤ most_bands }
    requires gathered { HasEnding (bands_shelf bands).content bands_request.file (Whole source.now) }
    requires built { IsBuiltOf source.now.pieces built.now }
    requires named { number_named bands_request.scope 0 built.now.program.decls.scopes ≡ Some scope }
    ensures { IfOk result (MaySayOfBands bands) }
{
    let ran = run_all(alloc, &built.program, &built.code, scope, bands)?;
    match ran {
        Ran::Sum(sum) => audit_bands(alloc, bands, source, built, scope, sum),
        Ran::Stopped(outcome) => {
            tell(alloc, &source.files, built.program.decls(), scope, &outcome)
        }
        Ran::Refused(refusal) => refuse_input(alloc, refusal),
    }
}

/// Builds the source of the bands, and looks for its scope.
fn drill_source_of(alloc: Global, bands: u32, source: &Source) -> Result<Reply, AllocError>
    requires some { 1 ≤ bands }
    requires most { bands ≤ most_bands }
    requires gathered { HasEnding (bands_shelf bands).content bands_request.file (Whole source.now) }
    requires readable { AreReadableTogether source.now.pieces }
    ensures { IfOk result (MaySayOfBands bands) }
{
    let built = match build(alloc, source) {
        Ok(built) => built,
        Err(BuildRefusal::Refused(code, pos)) => {
            return refuse_source(alloc, &source.files, code, pos);
        }
        Err(BuildRefusal::Memory) => return Err(AllocError),
    };
    match built.program.scope_named("Bands") {
        Some(scope) => drill_scope(alloc, bands, source, &built, scope),
        None => no_scope(alloc, "Bands"),
    }
}

/// Makes the source of so many bands, runs it 1,000 times, and audits it with as many leaves as there are bands. No
/// file is read.
pub fn drilled(alloc: Global, bands: u32) -> Result<Reply, AllocError>
    requires some { 1 ≤ bands }
    requires most { bands ≤ most_bands }
    ensures { IfOk result (MaySayOfBands bands) }
{
    match gather_bands(alloc, bands) {
        Ok(source) => drill_source_of(alloc, bands, &source),
        Err(refusal) => refuse_gathering(alloc, refusal),
    }
}
