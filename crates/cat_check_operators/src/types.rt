// Types compared and taken apart.
ghost use Rattle.std.specs.Prelude.{◌≡◌};
ghost use Rattle.std.specs.Option.{option_copied};
ghost use Rattle.cat_value.specs.declared.ty.Ty.TheVariants as flat_ty;
ghost use Rattle.cat_value.specs.declared.ty.Ty.TheViews as types;
ghost use Rattle.cat_names.specs.Types as words;

use cat_names::Flat;
use cat_value::{Ty, same_ty};

/// Whether two types are one.
pub fn same(left: &Ty, right: &Ty) -> bool
    ensures { result ≡ words.same left.now right.now }
{
    same_ty(left, right)
}

pub fn is_boolean(ty: &Ty) -> bool
    ensures { result ≡ words.same flat_ty.Boolean ty.now }
{
    same(&Ty::Boolean, ty)
}

/// Whether a type is the expected one, where one is expected.
pub fn is_as_expected(expected: Option<&Ty>, ty: &Ty) -> bool
    ensures { result ≡ words.is_as_expected (option_copied expected.entry) ty.now }
{
    match expected {
        Some(expected) => same(expected, ty),
        None => true,
    }
}

/// The type of a list's elements.
#[tactic(auto, using(crate::proofs::Views::types))]
pub fn element_of(ty: &Ty) -> Option<&Ty>
    ensures { option_copied result ≡ words.element_of ty.now }
{
    match ty {
        Ty::List(element) => Some(element.get()),
        _ => None,
    }
}

/// The type that is expected of the elements of a list, where one is expected of the list.
pub fn expected_element<'a>(expected: Option<&'a Ty>) -> Option<&'a Ty>
    ensures { option_copied result ≡ words.expected_element (option_copied expected.entry) }
{
    match expected {
        Some(ty) => element_of(ty),
        None => None,
    }
}

/// The number of a structure.
#[tactic(auto, using(crate::proofs::Views::types))]
pub fn structure_of(ty: &Ty) -> Option<u32>
    ensures { result ≡ words.structure_of ty.now }
{
    match ty {
        Ty::Structure(structure) => Some(*structure),
        _ => None,
    }
}

/// The number of an enumeration.
#[tactic(auto, using(crate::proofs::Views::types))]
pub fn enumeration_of(ty: &Ty) -> Option<u32>
    ensures { result ≡ words.enumeration_of ty.now }
{
    match ty {
        Ty::Enumeration(enumeration) => Some(*enumeration),
        _ => None,
    }
}

/// A type that operators take.
#[tactic(auto, using(crate::proofs::Views::types))]
pub fn flat_of(ty: &Ty) -> Option<Flat>
    ensures { result ≡ words.flat_of ty.now }
{
    match ty {
        Ty::Boolean => Some(Flat::Boolean),
        Ty::Integer => Some(Flat::Integer),
        Ty::Decimal => Some(Flat::Decimal),
        Ty::Money => Some(Flat::Money),
        Ty::Date => Some(Flat::Date),
        Ty::Duration => Some(Flat::Duration),
        Ty::List(_) => None,
        Ty::Structure(_) => None,
        Ty::Enumeration(_) => None,
    }
}

/// The same as a type.
pub fn whole(flat: Flat) -> Ty
    ensures { result ≡ words.whole flat }
{
    match flat {
        Flat::Boolean => Ty::Boolean,
        Flat::Integer => Ty::Integer,
        Flat::Decimal => Ty::Decimal,
        Flat::Money => Ty::Money,
        Flat::Date => Ty::Date,
        Flat::Duration => Ty::Duration,
    }
}

/// Whether a type is that of a list of elements of a type.
#[tactic(auto, using(crate::proofs::Views::types))]
pub fn is_list_of(element: &Ty, list: &Ty) -> bool
    ensures { result ≡ words.same (types.List element.now) list.now }
{
    match list {
        Ty::List(part) => same(element, part.get()),
        _ => false,
    }
}
