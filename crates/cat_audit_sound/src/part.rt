// The parts of an input.
ghost use Rattle.std.specs.Prelude.{◌≡◌, ◌≤◌, ◌<◌, length, IfOk, IsTrue};
ghost use Rattle.std.specs.List.{list_all};
ghost use Rattle.cat_pos.specs.declared.limits.TheConstants.{ENTRIES_BOUND};
ghost use Rattle.cat_value.specs.Declarations.{field_is_sound};
ghost use Rattle.cat_value.specs.Heights.{height_to, highest_field};
ghost use Rattle.cat_value.specs.Typing.{is_type};
ghost use Rattle.cat_audit_sound.specs.PointInputs.{part_to, fields_from};
ghost use Rattle.cat_audit_sound.specs.inside.PointTables.{found_in};
ghost use Rattle.cat_audit_sound.specs.inside.TypedParts.{IsPart, AreParts};

use crate::place::field_of;
use crate::pointed::with_point;
use crate::points::{PointTable, point_of_path};
use cat_guard::InputPath;
use cat_pos::List;
use cat_value::{Decls, Fields, Ty, Value, Values, declarations_are_sound};
use std::alloc::{AllocError, Global};

/// The value at a path of a type that is at most `depth` high.
#[cycle(part)]
#[tactic(auto, using(crate::proofs::PartEquations::lower))]
pub fn part(
    alloc: Global,
    decls: &Decls,
    points: &PointTable,
    path: &InputPath,
    ty: &Ty,
    depth: u32,
) -> Result<Value, AllocError>
    requires declared { IsTrue (is_type decls.now ty.now) }
    requires height { height_to decls.now.structures decls.now.enumerations depth ty.now ≤ depth }
    ensures { IfOk result (λ value. IsPart decls.now ty.now
        (part_to decls.now (found_in points.now) depth path.now ty.now) value) }
{
    let Ty::Structure(number) = ty else {
        let point = point_of_path(alloc, points, path)?;
        return with_point(alloc, decls, ty, point);
    };
    declarations_are_sound(decls);
    let structure = decls.structures.at(*number as usize);
    let values = parts(alloc, decls, points, path, &structure.fields, depth - 1)?;
    Ok(Value::Structure(values))
}

/// The values of the fields of the part at a path.
#[cycle(part)]
fn parts(
    alloc: Global,
    decls: &Decls,
    points: &PointTable,
    path: &InputPath,
    fields: &Fields,
    depth: u32,
) -> Result<Values, AllocError>
    requires few { length fields.now < ENTRIES_BOUND }
    requires declared { IsTrue (list_all (field_is_sound decls.now.structures decls.now.enumerations) fields.now) }
    requires height { highest_field (height_to decls.now.structures decls.now.enumerations depth) fields.now ≤ depth }
    ensures { IfOk result (λ values. AreParts decls.now fields.now (fields_from
        (part_to decls.now (found_in points.now) depth) path.now 0 fields.now) values) }
{
    let mut values = List::new(alloc);
    for (number, field) in fields.as_slice().iter().enumerate() {
        let path = field_of(alloc, path, number as u32)?;
        values.push(part(alloc, decls, points, &path, &field.ty, depth)?)?;
    }
    Ok(values)
}
