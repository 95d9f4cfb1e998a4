// Structures and enumerations, as the types that have names.
ghost use Rattle.std.specs.Prelude.{◌≡◌, slice_get};
ghost use Rattle.std.specs.Option.{option_copied};
ghost use Rattle.cat_scope.specs.Names.{output_at};
ghost use Rattle.cat_value.specs.Inputs.{outputs_in};
ghost use Rattle.cat_table.specs.NamedTypes as words;

use cat_value::{Case, Decls, Field, ItemDecl, Kind, Ty};

/// The structure or the enumeration of that number.
#[derive(Clone, Copy, PartialEq, Eq, Debug)]
pub enum NamedType {
    Structure(u32),
    Enumeration(u32),
}

/// What of these a type is.
#[tactic(auto, using(crate::proofs::TypeViews::types))]
pub(crate) fn named(ty: &Ty) -> Option<NamedType>
    ensures { result ≡ words.named ty.now }
{
    match ty {
        Ty::Structure(number) => Some(NamedType::Structure(*number)),
        Ty::Enumeration(number) => Some(NamedType::Enumeration(*number)),
        _ => None,
    }
}

/// What the type of an item is.
pub(crate) fn item_named(item: Option<&ItemDecl>) -> Option<NamedType>
    ensures { result ≡ words.item_named (option_copied item.entry) }
{
    match item {
        Some(item) => named(&item.ty),
        None => None,
    }
}

/// What the type of a field is.
pub(crate) fn field_named(field: Option<&Field>) -> Option<NamedType>
    ensures { result ≡ words.field_named (option_copied field.entry) }
{
    match field {
        Some(field) => named(&field.ty),
        None => None,
    }
}

/// What the content of a case is.
pub(crate) fn content_named(case: Option<&Case>) -> Option<NamedType>
    ensures { result ≡ words.content_named (option_copied case.entry) }
{
    match &case?.content {
        Some(content) => named(content),
        None => None,
    }
}

/// The output of that number among some items.
fn output_among(items: &[ItemDecl], number: u32) -> Option<&ItemDecl>
    ensures { option_copied result ≡ slice_get (outputs_in items.now) number }
{
    let mut left = number;
    for item in items {
        if !item.kind.is_output() {
            continue;
        }
        if left == 0 {
            return Some(item);
        }
        left -= 1;
    }
    None
}

/// The output of that number of a scope.
pub(crate) fn output_at(decls: &Decls, scope: u32, number: u32) -> Option<&ItemDecl>
    ensures { option_copied result ≡ output_at decls.now scope number }
{
    match decls.scopes.get(scope as usize) {
        Some(scope) => output_among(scope.items.as_slice(), number),
        None => None,
    }
}

/// The output of that number of the scope that an item calls.
pub(crate) fn called_output<'a>(
    decls: &'a Decls,
    number: u32,
    item: Option<&ItemDecl>,
) -> Option<&'a ItemDecl>
    ensures { option_copied result ≡ words.called_output decls.now number (option_copied item.entry) }
{
    match item?.kind {
        Kind::Called(scope) => output_at(decls, scope, number),
        _ => None,
    }
}

/// The field of that number of a structure.
pub(crate) fn field_in(decls: &Decls, number: u32, of: Option<NamedType>) -> Option<&Field>
    ensures { option_copied result ≡ words.field_in decls.now number of }
{
    match of? {
        NamedType::Structure(structure) => decls
            .structures
            .get(structure as usize)?
            .fields
            .get(number as usize),
        NamedType::Enumeration(_) => None,
    }
}

/// The case of that number of an enumeration.
pub(crate) fn case_in(decls: &Decls, number: u32, of: Option<NamedType>) -> Option<&Case>
    ensures { option_copied result ≡ words.case_in decls.now number of }
{
    match of? {
        NamedType::Structure(_) => None,
        NamedType::Enumeration(enumeration) => decls
            .enumerations
            .get(enumeration as usize)?
            .cases
            .get(number as usize),
    }
}
