// What names of types, cases and scopes stand for.
ghost use Rattle.std.specs.Prelude.{◌≡◌};
ghost use Rattle.std.specs.Option.{option_copied};
ghost use Rattle.cat_value.specs.Entries.{content_of};
ghost use Rattle.cat_tree.specs.declared.name.CaseName.TheVariants as case;
ghost use Rattle.cat_names.specs.Compound.{case_alone};
ghost use Rattle.cat_names.specs.Found.{Tells, and_then};
ghost use Rattle.cat_names.specs.Lookup as lookups;
ghost use Rattle.cat_names.specs.Naming as words;
ghost use Rattle.cat_check_forms.specs.Tabled.{IsTabled, names_at};
ghost use Rattle.cat_check_forms.specs.Taken.{cut, some_content, with_content};

use crate::Here;
use cat_check_operators::{Resolved, enumeration_of, structure_of};
use cat_names::{Fault, Refusal};
use cat_pos::{Boxed, Pos};
use cat_scope::Expr;
use cat_tree::{Base, CaseName, Name, Type};
use cat_value::Ty;

/// The case that is named, by the numbers of its enumeration and its own.
pub fn case_named(here: &Here, case: &CaseName) -> Result<(u32, u32), Refusal>
    requires { IsTabled here.now }
    ensures { Tells result (words.case_found (names_at here.now) case.now) }
{
    match case {
        CaseName::Bare(name) => match here.tables.only_case(here.decls, name) {
            Some(case) => Ok(case),
            None => Err(Refusal::Refused(Fault::NameUnknown(name.pos))),
        },
        CaseName::Qualified(ty, name) => qualified(here, ty.get(), name.get()),
    }
}

fn qualified(here: &Here, ty: &Name, name: &Name) -> Result<(u32, u32), Refusal>
    requires { IsTabled here.now }
    ensures { Tells result (words.case_found (names_at here.now) (case.Qualified ty.now name.now)) }
{
    let Some(named) = here.tables.type_named(here.decls, &ty.text) else {
        return Err(Refusal::Refused(Fault::NameUnknown(ty.pos)));
    };
    case_of_type(here, &named, name)
}

fn case_of_type(here: &Here, ty: &Ty, name: &Name) -> Result<(u32, u32), Refusal>
    requires { IsTabled here.now }
    ensures { Tells result (words.case_of_type (names_at here.now) name.now ty.now) }
{
    let Some(enumeration) = enumeration_of(ty) else {
        return Err(Refusal::Refused(Fault::NameUnknown(name.pos)));
    };
    match here.tables.case(here.decls, enumeration, &name.text) {
        Some(case) => Ok(case),
        None => Err(Refusal::Refused(Fault::NameUnknown(name.pos))),
    }
}

/// The first token of a case.
pub fn case_first(case: &CaseName) -> Pos
    ensures { result ≡ words.case_first case.now }
{
    match case {
        CaseName::Bare(name) => name.pos,
        CaseName::Qualified(ty, _) => ty.get().pos,
    }
}

/// The content of a case, or that there is none, where there is such a case.
fn declared_content<'a>(here: &Here<'a>, case: (u32, u32)) -> Option<&'a Option<Ty>>
    ensures { option_copied result ≡ content_of here.now.decls.now case.0 case.1 }
{
    let enumeration = here.decls.enumerations.get(case.0 as usize)?;
    let case = enumeration.cases.get(case.1 as usize)?;
    Some(&case.content)
}

/// The type of a case's content, where the case has one.
pub fn content_type<'a>(here: &Here<'a>, case: (u32, u32)) -> Option<&'a Ty>
    ensures { option_copied result ≡ some_content (content_of here.now.decls.now case.0 case.1) }
{
    match declared_content(here, case) {
        Some(content) => content.as_ref(),
        None => None,
    }
}

/// A case alone, which must have no content.
pub fn case(here: &Here, case: &CaseName) -> Result<Resolved, Refusal>
    requires { IsTabled here.now }
    ensures { Tells result (and_then (words.case_found (names_at here.now) case.now)
        (λ k. case_alone (words.case_first case.now) k (content_of (names_at here.now).decls k.0 k.1))) }
{
    let found = case_named(here, case)?;
    bare_case(here, case_first(case), found)
}

fn bare_case(here: &Here, first: Pos, case: (u32, u32)) -> Result<Resolved, Refusal>
    ensures { Tells result (case_alone first case (content_of here.now.decls.now case.0 case.1)) }
{
    match declared_content(here, case) {
        Some(None) => {
            let expr = Expr::Case(first, case.0, case.1, None);
            Resolved::new(here.alloc, first, first, expr, Ty::Enumeration(case.0))
        }
        Some(Some(_)) => Err(Refusal::Refused(Fault::TypeMismatch(first))),
        None => Err(Refusal::Refused(Fault::TypeMismatch(first))),
    }
}

/// A case with its content, of that type: none may stand where the case has none.
pub fn case_with(
    here: &Here,
    first: Pos,
    case: (u32, u32),
    ty: Option<&Ty>,
    content: Resolved,
) -> Result<Resolved, Refusal>
    ensures { Tells result (with_content first case (option_copied ty.entry) content) }
{
    if ty.is_none() {
        return Err(Refusal::Refused(Fault::TypeMismatch(first)));
    }
    let expr = Expr::Case(first, case.0, case.1, Some(content.into_expr()));
    Resolved::new(here.alloc, first, first, expr, Ty::Enumeration(case.0))
}

/// The number of the structure that is named.
pub fn structure_named(here: &Here, name: &Name) -> Result<u32, Refusal>
    requires { IsTabled here.now }
    ensures { Tells result (words.structure_found (names_at here.now) name.now) }
{
    let Some(ty) = here.tables.type_named(here.decls, &name.text) else {
        return Err(Refusal::Refused(Fault::NameUnknown(name.pos)));
    };
    match structure_of(&ty) {
        Some(structure) => Ok(structure),
        None => Err(Refusal::Refused(Fault::TypeMismatch(name.pos))),
    }
}

/// The number of the scope that is named.
pub fn scope_named(here: &Here, name: &Name) -> Result<u32, Refusal>
    requires { IsTabled here.now }
    ensures { Tells result (words.scope_found (names_at here.now) name.now) }
{
    match here.tables.scope_named(here.decls, &name.text) {
        Some(scope) => Ok(scope),
        None => Err(Refusal::Refused(Fault::NameUnknown(name.pos))),
    }
}

/// The type that a base stands for.
fn base_type(here: &Here, base: &Base) -> Option<Ty>
    requires { IsTabled here.now }
    ensures { result ≡ lookups.base_type (lookups.type_names here.now.decls.now) base.now }
{
    match base {
        Base::Boolean => Some(Ty::Boolean),
        Base::Integer => Some(Ty::Integer),
        Base::Decimal => Some(Ty::Decimal),
        Base::Money => Some(Ty::Money),
        Base::Date => Some(Ty::Date),
        Base::Duration => Some(Ty::Duration),
        Base::Named(name) => here.tables.type_named(here.decls, name),
    }
}

/// The type of a sum. A type behind more than one `list of` is as little one of a sum as that behind one, so that no
/// deep type is made.
pub fn sum_type(here: &Here, ty: &Type) -> Result<Ty, Refusal>
    requires { IsTabled here.now }
    ensures { Tells result (lookups.type_found (lookups.type_names here.now.decls.now) (cut ty.now)) }
{
    let Some(base) = base_type(here, &ty.base) else {
        return Err(Refusal::Refused(Fault::NameUnknown(ty.pos)));
    };
    if ty.lists == 0 {
        return Ok(base);
    }
    Ok(Ty::List(Boxed::new(here.alloc, base)?))
}
