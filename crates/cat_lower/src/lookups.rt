// Types that declarations tell.
ghost use Rattle.std.specs.Prelude.{◌≡◌, IfOk, slice_get};
ghost use Rattle.std.specs.Option.{option_copied};
ghost use Rattle.cat_value.specs.Entries.{content_of};
ghost use Rattle.cat_value.specs.declared.ty.Ty.TheViews.{out-Ty};
ghost use Rattle.cat_scope.specs.Fitting.{field_type, input_type};
ghost use Rattle.cat_lower.specs.Rows.{params_of};
ghost use Rattle.cat_lower.specs.Types as words;

use crate::LoweringScene;
use cat_value::{ItemDecl, Ty, copy_ty};
use std::alloc::{AllocError, Global};

/// A type that may be missing.
pub fn type_or(alloc: Global, ty: Option<&Ty>) -> Result<Ty, AllocError>
    ensures { IfOk result (λ t. t ≡ words.type_or (option_copied ty.entry)) }
{
    match ty {
        Some(ty) => copy_ty(alloc, ty),
        None => Ok(Ty::Boolean),
    }
}

/// The type of an item.
pub fn item_type(alloc: Global, item: Option<&ItemDecl>) -> Result<Ty, AllocError>
    ensures { IfOk result (λ t. t ≡ words.item_type (option_copied item.entry)) }
{
    match item {
        Some(item) => copy_ty(alloc, &item.ty),
        None => Ok(Ty::Boolean),
    }
}

/// The type of the elements of a list.
#[tactic(auto, using(crate::proofs::TypeViews::types))]
pub fn element_type(alloc: Global, ty: &Ty) -> Result<Ty, AllocError>
    ensures { IfOk result (λ t. t ≡ words.element_type ty.now) }
{
    match ty {
        Ty::List(element) => copy_ty(alloc, element.get()),
        _ => Ok(Ty::Boolean),
    }
}

/// The type that is expected of elements, where one is expected of their list.
pub fn element_expected(alloc: Global, expected: Option<&Ty>) -> Result<Option<Ty>, AllocError>
    ensures { IfOk result (λ t. t ≡ words.element_expected (option_copied expected.entry)) }
{
    match expected {
        Some(ty) => {
            let element = element_type(alloc, ty)?;
            Ok(Some(element))
        }
        None => Ok(None),
    }
}

/// The number of an enumeration.
#[tactic(auto, using(crate::proofs::TypeViews::types))]
pub fn enumeration_in(ty: &Ty) -> u32
    ensures { result ≡ words.enumeration_in (out-Ty ty.now) }
{
    match ty {
        Ty::Enumeration(enumeration) => *enumeration,
        _ => 0,
    }
}

/// The type of field `field` of a structure, where there is one.
pub fn declared_field<'a>(here: &LoweringScene<'a>, structure: u32, field: u32) -> Option<&'a Ty>
    ensures { option_copied result ≡ field_type here.now.decls.now structure field }
{
    let structure = here.decls.structures.get(structure as usize)?;
    let field = structure.fields.get(field as usize)?;
    Some(&field.ty)
}

/// The same, of a type.
#[tactic(auto, using(crate::proofs::TypeViews::types))]
pub fn field_in(here: &LoweringScene, field: u32, ty: &Ty) -> Result<Ty, AllocError>
    ensures { IfOk result (λ t. t ≡ words.field_in here.now.decls.now field (out-Ty ty.now)) }
{
    match ty {
        Ty::Structure(structure) => type_or(here.alloc, declared_field(here, *structure, field)),
        _ => Ok(Ty::Boolean),
    }
}

/// The content of a case, or that there is none, where there is such a case.
fn declared_content<'a>(
    here: &LoweringScene<'a>,
    enumeration: u32,
    case: u32,
) -> Option<&'a Option<Ty>>
    ensures { option_copied result ≡ content_of here.now.decls.now enumeration case }
{
    let enumeration = here.decls.enumerations.get(enumeration as usize)?;
    let case = enumeration.cases.get(case as usize)?;
    Some(&case.content)
}

/// The type of a case's content, where the case has one.
pub fn content_type<'a>(here: &LoweringScene<'a>, enumeration: u32, case: u32) -> Option<&'a Ty>
    ensures { option_copied result ≡ words.content_type (content_of here.now.decls.now enumeration case) }
{
    match declared_content(here, enumeration, case) {
        Some(content) => content.as_ref(),
        None => None,
    }
}

/// The type of an item of a called scope, where it may be given.
pub fn given_input<'a>(here: &LoweringScene<'a>, scope: u32, item: u32) -> Option<&'a Ty>
    ensures { option_copied result ≡ input_type here.now.decls.now scope item }
{
    let scope = here.decls.scopes.get(scope as usize)?;
    let item = scope.items.get(item as usize)?;
    if !item.kind.may_be_given() {
        return None;
    }
    Some(&item.ty)
}

/// The type of a parameter of a function, where there is one.
pub fn param_of<'a>(here: &LoweringScene<'a>, function: u32, number: usize) -> Option<&'a Ty>
    ensures { option_copied result ≡ slice_get (params_of (slice_get here.now.items.now function)) number }
{
    match here.items.get(function as usize) {
        Some(item) => item.params.get(number),
        None => None,
    }
}
