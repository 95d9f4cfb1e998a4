// The points of the free terms of a table, by their paths.
ghost use Rattle.std.specs.Prelude.{◌≡◌, Some, None, IfOk, OnOk, if◌then◌else◌};
ghost use Rattle.cat_region.specs.Chosen.{point_at};
ghost use Rattle.cat_region.specs.Regions.{IsInhabited};
ghost use Rattle.cat_guard.specs.declared.table.InputPath.{InputPath as PathSeen};
ghost use Rattle.cat_guard.specs.Valuations.{dims_of};
ghost use Rattle.cat_audit_sound.specs.PointInputs.{is_at, point_from};
ghost use Rattle.cat_audit_sound.specs.inside.PointTables.{earlier, found_in};

use cat_audit_keys::{Key, path_key};
use cat_guard::{InputPath, Term};
use cat_region::{Point, Region};
use indexmap::IndexMap;
use std::alloc::{AllocError, Global};

/// Points by the keys of paths. That of a path is found in constant time.
pub(crate) type PointTable = IndexMap<Key, Point>;

/// Adds the point of a path, unless the path has one.
fn add_point(
    alloc: Global,
    points: &mut PointTable,
    path: &InputPath,
    point: Point,
) -> Result<(), AllocError>
    ensures { OnOk result ((other : PathSeen) → found_in points.new other
        ≡ earlier (found_in points.old other) (if is_at other (Some path.now) then Some point else None)) }
{
    let key = path_key(alloc, path)?;
    if points.contains_key(&key) {
        return Ok(());
    }
    points.insert(key, point)?;
    Ok(())
}

/// Adds the point of a term, where it has a path, unless the path has one.
fn add_term(
    alloc: Global,
    points: &mut PointTable,
    term: &Term,
    point: Point,
) -> Result<(), AllocError>
    ensures { OnOk result ((path : PathSeen) → found_in points.new path
        ≡ earlier (found_in points.old path) (if is_at path term.now.path then Some point else None)) }
{
    match &term.path {
        Some(path) => add_point(alloc, points, path, point),
        None => Ok(()),
    }
}

/// The points that a region has of the free terms: of each path that of the first term that has it.
pub(crate) fn points_of(
    alloc: Global,
    terms: &[Term],
    region: &Region,
) -> Result<PointTable, AllocError>
    requires dims { region.now.dims ≡ dims_of terms.now }
    requires inhabited { IsInhabited region.now }
    ensures { IfOk result (λ points. (path : PathSeen) → found_in points path
        ≡ point_from (point_at region.now) 0 terms.now path) }
{
    let mut points = IndexMap::new(alloc);
    for (number, term) in terms.iter().enumerate() {
        add_term(alloc, &mut points, term, region.point(number))?;
    }
    Ok(points)
}

/// The point of a path, where there is one.
pub(crate) fn point_of_path(
    alloc: Global,
    points: &PointTable,
    path: &InputPath,
) -> Result<Option<Point>, AllocError>
    ensures { IfOk result (λ point. point ≡ found_in points.now path.now) }
{
    let key = path_key(alloc, path)?;
    match points.get(&key) {
        Some(point) => Ok(Some(*point)),
        None => Ok(None),
    }
}
