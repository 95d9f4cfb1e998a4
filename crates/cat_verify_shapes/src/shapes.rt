// One pass over the code that finds the greatest shapes, callers before what they call.
ghost use Rattle.std.specs.Prelude.{◌≡◌, ◌<◌, ℕ, List as Listed, [], ◌∷◌, ◌++◌, length, map, All, IfOk, IfErr, OnOk};
ghost use Rattle.cat_value.specs.Inputs.{must_be_given};
ghost use Rattle.cat_order.specs.Order.{IsOrder};
ghost use Rattle.cat_value.specs.Dependencies.{type_dependencies};
ghost use Rattle.cat_code.specs.Places.{function_places};
ghost use Rattle.cat_verify_tables.specs.TableWords.{numbered};
ghost use Rattle.cat_verify_shapes.specs.Settled.{IsSettled};
ghost use Rattle.cat_verify_shapes.specs.Owned.{AreOwners};
ghost use Rattle.cat_verify_shapes.specs.Unshaped.{HasOwnShapes, HasCause};
ghost use Rattle.cat_verify_shapes.specs.inside.States.{AreInOrder, IsState, LooksAt, LooksAtAll, all_places, refused};

use crate::forms::Forms;
use crate::found::{Spot, arrive, arrive_all, open, unmet};
use crate::leads::Stuck;
use crate::shape::{Flags, Shape};
use crate::step::step;
use crate::{Owner, OwnerPlaces, ShapeRefusal};
use cat_code::{Instr, Tables};
use cat_pos::List;
use cat_value::ItemDecl;
use cat_verify_tables::FunctionPlace;
use std::alloc::{AllocError, Global};

/// The slots of inputs.
fn inputs(alloc: Global, items: &[ItemDecl]) -> Result<Flags, AllocError>
    ensures { IfOk result (λ flags. flags ≡ map (λ item. must_be_given item.kind) items.now) }
{
    let mut flags = List::new(alloc);
    for item in items {
        flags.push(item.kind.must_be_given())?;
    }
    Ok(flags)
}

/// The refusal at a place.
fn refused(stuck: Stuck, place: usize) -> ShapeRefusal
    ensures { result ≡ refused stuck place }
{
    match stuck {
        Stuck::Bad => ShapeRefusal::BadShape(place),
        Stuck::Memory => ShapeRefusal::Memory,
    }
}

/// Each scope leads to where it begins.
fn enter_scopes(
    alloc: Global,
    tables: &Tables,
    code: &[Instr],
    forms: &Forms,
    owners: &[OwnerPlaces],
    found: &mut Vec<Spot>,
) -> Result<(), ShapeRefusal>
    requires settled { IsSettled tables.now code.now }
    requires owners { AreOwners tables.now code.now owners.now }
    requires known { IsState tables.now code.now forms.now found.old.items 0 (all_places owners.now) }
    ensures { LooksAtAll tables.now code.now forms.now found.new.items (length tables.now.decls.scopes)
        (all_places owners.now) result }
{
    for (number, scope) in tables.decls.get().scopes.as_slice().iter().enumerate() {
        let entry = *tables.scopes.at(number);
        let owner = Owner {
            scope: number as u32,
            function: None,
        };
        let filled = inputs(alloc, scope.items.as_slice())?;
        let shape = Shape::entered(alloc, owner, List::new(alloc), filled);
        if let Err(stuck) = arrive(alloc, found, entry as usize, shape) {
            return Err(refused(stuck, entry as usize));
        }
    }
    Ok(())
}

/// Follows the instruction at a place, where a shape leads to it.
#[inline(always)]
fn look_at(
    tables: &Tables,
    functions: &[FunctionPlace],
    code: &[Instr],
    forms: &mut Forms,
    found: &mut Vec<Spot>,
    place: usize,
) -> Result<(), Stuck>
    requires functions { functions.now ≡ map numbered (function_places tables.now.decls) }
    requires settled { IsSettled tables.now code.now }
    requires inside { place < length code.now }
    requires long { length found.old.items ≡ length code.now }
    ensures looked { (left : Listed ℕ) → AreInOrder tables.now code.now (place ∷ left)
        → IsState tables.now code.now forms.old found.old.items (length tables.now.decls.scopes) (place ∷ left)
        → LooksAt tables.now code.now forms.new found.new.items left place result }
    ensures long { OnOk result (length found.new.items ≡ length code.now) }
{
    let instr = code[place];
    let alloc = forms.alloc;
    let Some(shape) = open(alloc, found, place, instr)? else {
        return Ok(());
    };
    forms.prepare(&shape, instr)?;
    let leads = step(tables, functions, code, forms, place, shape, instr)?;
    arrive_all(alloc, found, leads)
}

/// Follows instructions in their order.
fn look_at_all(
    tables: &Tables,
    functions: &[FunctionPlace],
    code: &[Instr],
    forms: &mut Forms,
    found: &mut Vec<Spot>,
    places: &[u32],
) -> Result<(), ShapeRefusal>
    requires functions { functions.now ≡ map numbered (function_places tables.now.decls) }
    requires settled { IsSettled tables.now code.now }
    requires inside { All (λ place. place < length code.now) places.now }
    requires long { length found.old.items ≡ length code.now }
    ensures looked { (left : Listed ℕ) → AreInOrder tables.now code.now (places.now ++ left)
        → IsState tables.now code.now forms.old found.old.items (length tables.now.decls.scopes) (places.now ++ left)
        → LooksAtAll tables.now code.now forms.new found.new.items (length tables.now.decls.scopes) left result }
    ensures long { OnOk result (length found.new.items ≡ length code.now) }
{
    for &place in places {
        let place = place as usize;
        if let Err(stuck) = look_at(tables, functions, code, forms, found, place) {
            return Err(refused(stuck, place));
        }
    }
    Ok(())
}

/// Follows the instructions of scopes and functions.
fn look_at_owners(
    tables: &Tables,
    functions: &[FunctionPlace],
    code: &[Instr],
    forms: &mut Forms,
    found: &mut Vec<Spot>,
    owners: &[OwnerPlaces],
) -> Result<(), ShapeRefusal>
    requires functions { functions.now ≡ map numbered (function_places tables.now.decls) }
    requires settled { IsSettled tables.now code.now }
    requires inside { All (λ one. All (λ place. place < length code.now) one.places) owners.now }
    requires order { AreInOrder tables.now code.now (all_places owners.now) }
    requires known { IsState tables.now code.now forms.old found.old.items (length tables.now.decls.scopes)
        (all_places owners.now) }
    ensures { LooksAtAll tables.now code.now forms.new found.new.items (length tables.now.decls.scopes) [] result }
{
    for one in owners {
        look_at_all(tables, functions, code, forms, found, one.places.as_slice())?;
    }
    Ok(())
}

/// Refuses code that has no shapes. Structures and enumerations are named behind their parts, and scopes and functions
/// in front of those that they call.
pub fn refuse_shapes(
    alloc: Global,
    tables: &Tables,
    code: &[Instr],
    functions: &[FunctionPlace],
    types: &[u32],
    owners: &[OwnerPlaces],
) -> Result<(), ShapeRefusal>
    requires settled { IsSettled tables.now code.now }
    requires functions { functions.now ≡ map numbered (function_places tables.now.decls) }
    requires types { IsOrder (type_dependencies tables.now.decls.structures tables.now.decls.enumerations) types.now }
    requires owners { AreOwners tables.now code.now owners.now }
    ensures shaped { IfOk result (λ _. HasOwnShapes tables.now code.now) }
    ensures cause { IfErr result (HasCause tables.now code.now) }
{
    let mut forms = Forms::of(alloc, tables, types)?;
    let mut found = unmet(alloc, code.len())?;
    enter_scopes(alloc, tables, code, &forms, owners, &mut found)?;
    look_at_owners(tables, functions, code, &mut forms, &mut found, owners)
}
