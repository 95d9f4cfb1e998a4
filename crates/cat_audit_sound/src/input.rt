// The input of a region.
ghost use Rattle.std.specs.Prelude.{◌≡◌, ◌<◌, ◌≤◌, ℕ, Some, length, slice_get, IfOk};
ghost use Rattle.cat_pos.specs.declared.limits.TheConstants.{ENTRIES_BOUND};
ghost use Rattle.cat_value.specs.declared.declaration.ItemDecl.{ItemDecl as Declared};
ghost use Rattle.cat_value.specs.Inputs.{IsWellTyped};
ghost use Rattle.cat_value.specs.Laws.{IsItem};
ghost use Rattle.cat_region.specs.Chosen.{point_at};
ghost use Rattle.cat_region.specs.Regions.{IsInhabited};
ghost use Rattle.cat_scope.specs.Names.{scope_items};
ghost use Rattle.cat_guard.specs.Valuations.{dims_of};
ghost use Rattle.cat_audit_sound.specs.Parts.{parts_given};
ghost use Rattle.cat_audit_sound.specs.declared.parts.TheConstants.{MOST_PARTS};
ghost use Rattle.cat_audit_sound.specs.PointInputs.{given_for, given_from, input_at};
ghost use Rattle.cat_audit_sound.specs.inside.PointTables.{found_in};
ghost use Rattle.cat_audit_sound.specs.inside.TypedParts.{IsGiven, AreGiven};

use crate::part::part;
use crate::parts::have_few_parts;
use crate::points::{PointTable, points_of};
use cat_guard::{InputPath, Table};
use cat_pos::List;
use cat_region::Region;
use cat_value::{Decls, HIGHEST, Input, ItemDecl, Kind, Value, declarations_are_sound};
use std::alloc::{AllocError, Global};

/// What an item is given: a value where it must be given, and else none.
fn given_for(
    alloc: Global,
    decls: &Decls,
    points: &PointTable,
    number: u32,
    item: &ItemDecl,
) -> Result<Option<Value>, AllocError>
    requires { IsItem decls.now item.now }
    ensures { IfOk result (λ given. IsGiven decls.now item.now
        (given_for decls.now (found_in points.now) number item.now) given) }
{
    match item.kind {
        Kind::Input | Kind::InputOutput => {
            let path = InputPath {
                item: number,
                fields: List::new(alloc),
            };
            let value = part(alloc, decls, points, &path, &item.ty, HIGHEST)?;
            Ok(Some(value))
        }
        _ => Ok(None),
    }
}

/// What items are given, in their order.
fn given(
    alloc: Global,
    decls: &Decls,
    points: &PointTable,
    items: &[ItemDecl],
) -> Result<Input, AllocError>
    requires few { length items.now < ENTRIES_BOUND }
    requires items { (k : ℕ) (item : Declared) → slice_get items.now k ≡ Some item → IsItem decls.now item }
    ensures { IfOk result (λ input. AreGiven decls.now items.now
        (given_from decls.now (found_in points.now) 0 items.now) input) }
{
    let mut input = List::new(alloc);
    for (number, item) in items.iter().enumerate() {
        input.push(given_for(alloc, decls, points, number as u32, item)?)?;
    }
    Ok(input)
}

/// The input of the scope of a table in which each free term has its point of the region, and all else that must be
/// given its default. No context is given. It takes a step for each term and each part of an input, and where there
/// would be too many parts, it is as if memory had run out, before any is made.
pub fn input_of(
    alloc: Global,
    table: &Table,
    decls: &Decls,
    region: &Region,
) -> Result<Input, AllocError>
    requires scope { table.now.scope < length decls.now.scopes }
    requires dims { region.now.dims ≡ dims_of table.now.terms }
    requires inhabited { IsInhabited region.now }
    ensures value { IfOk result (λ input. input ≡ input_at decls.now table.now (point_at region.now)) }
    ensures typed { IfOk result (λ input. IsWellTyped decls.now table.now.scope input) }
    ensures few { IfOk result (λ input. parts_given decls.now (scope_items decls.now table.now.scope) ≤ MOST_PARTS) }
{
    declarations_are_sound(decls);
    let terms = table.terms.as_slice();
    let items = decls.scopes.at(table.scope as usize).items.as_slice();
    if !have_few_parts(items, decls) {
        return Err(AllocError);
    }
    let points = points_of(alloc, terms, region)?;
    let input = given(alloc, decls, &points, items)?;
    Ok(input)
}
