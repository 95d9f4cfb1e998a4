// The types of what instructions name.
ghost use Rattle.std.specs.Prelude.{◌≡◌, IfOk, IsTrue, map, slice_get};
ghost use Rattle.std.specs.List.{list_all};
ghost use Rattle.std.specs.Option.{option_copied, option_map};
ghost use Rattle.cat_scope.specs.Names.{scope_items};
ghost use Rattle.cat_code.specs.Forms as code;
ghost use Rattle.cat_code.specs.Places.{function_places, target_decl};
ghost use Rattle.cat_verify_tables.specs.TableWords.{numbered};
ghost use Rattle.cat_code.specs.Told.{constant_form, result_form};
ghost use Rattle.cat_code.specs.Valid.{constant_is_sound};
ghost use Rattle.cat_verify_shapes.specs.Owned.{owner_of};
ghost use Rattle.cat_verify_shapes.specs.inside.Senses.{StandsIn};
ghost use Rattle.cat_verify_shapes.specs.inside.Taking.{target_at};

use crate::Owner;
use crate::forms::Forms;
use cat_code::Tables;
use cat_value::{Decls, ItemDecl, Kind, Target};
use cat_verify_tables::FunctionPlace;
use std::alloc::AllocError;

/// The type of a constant.
pub(crate) fn constant_form(
    tables: &Tables,
    forms: &Forms,
    constant: u32,
) -> Result<Option<u32>, AllocError>
    requires { IsTrue (list_all (constant_is_sound tables.now.decls) tables.now.constants) }
    ensures { IfOk result (λ form. StandsIn tables.now.decls forms.now form (constant_form tables.now constant)) }
{
    match tables.constants.get(constant as usize) {
        Some(constant) => Ok(Some(forms.of_ty(tables.decls.get(), &constant.ty)?)),
        None => Ok(None),
    }
}

/// The items of a scope.
fn item_of(decls: &Decls, scope: u32, item: u32) -> Option<&ItemDecl>
    ensures { option_copied result ≡ slice_get (scope_items decls.now scope) item }
{
    match decls.scopes.get(scope as usize) {
        Some(scope) => scope.items.get(item as usize),
        None => None,
    }
}

/// The type of a slot of a scope.
pub(crate) fn slot_form(
    tables: &Tables,
    forms: &Forms,
    scope: u32,
    slot: u32,
) -> Result<Option<u32>, AllocError>
    ensures { IfOk result
        (λ form. StandsIn tables.now.decls forms.now form (code.slot_form tables.now.decls scope slot)) }
{
    let decls = tables.decls.get();
    match item_of(decls, scope, slot) {
        Some(item) => Ok(Some(forms.of_item(decls, item)?)),
        None => Ok(None),
    }
}

/// The declaration of the variable that a target is.
fn target_item(decls: &Decls, target: Target) -> Option<&ItemDecl>
    ensures { option_copied result ≡ target_decl decls.now target.scope target.item target.inner }
{
    let Some(item) = item_of(decls, target.scope, target.item) else {
        return None;
    };
    let Some(inner) = target.inner else {
        return Some(item);
    };
    match item.kind {
        Kind::Called(called) => item_of(decls, called, inner),
        _ => None,
    }
}

/// The type of the values that the definitions of a target give.
pub(crate) fn target_form(
    tables: &Tables,
    forms: &Forms,
    target: u32,
) -> Result<Option<u32>, AllocError>
    ensures { IfOk result (λ form. StandsIn tables.now.decls forms.now form (target_at tables.now target)) }
{
    let Some(entry) = tables.targets.get(target as usize) else {
        return Ok(None);
    };
    let decls = tables.decls.get();
    match target_item(decls, entry.target) {
        Some(item) => Ok(Some(forms.of_held(decls, item)?)),
        None => Ok(None),
    }
}

/// The declaration of a function.
pub(crate) fn function_item<'a>(
    decls: &'a Decls,
    functions: &[FunctionPlace],
    function: u32,
) -> Option<&'a ItemDecl>
    requires { functions.now ≡ map numbered (function_places decls.now) }
    ensures { option_copied result
        ≡ option_map (λ place. place.decl) (slice_get (function_places decls.now) function) }
{
    match functions.get(function as usize) {
        Some(place) => item_of(decls, place.scope, place.item),
        None => None,
    }
}

/// What a scope or a function gives.
pub(crate) fn result_form(
    tables: &Tables,
    functions: &[FunctionPlace],
    forms: &Forms,
    owner: Owner,
) -> Result<Option<u32>, AllocError>
    requires { functions.now ≡ map numbered (function_places tables.now.decls) }
    ensures { IfOk result (λ form. StandsIn tables.now.decls forms.now form (result_form tables.now (owner_of owner))) }
{
    let Some(function) = owner.function else {
        return Ok(Some(forms.of_outputs(owner.scope)?));
    };
    let decls = tables.decls.get();
    match function_item(decls, functions, function) {
        Some(item) => Ok(Some(forms.of_ty(decls, &item.ty)?)),
        None => Ok(None),
    }
}
