// Fields and arms by their names.
ghost use Rattle.std.specs.Prelude.{◌≡◌};
ghost use Rattle.cat_value.specs.Entries.{content_of};
ghost use Rattle.cat_tree.specs.declared.expression.Pattern.TheVariants as pattern;
ghost use Rattle.cat_names.specs.declared.fault.Fault.TheVariants as faults;
ghost use Rattle.cat_names.specs.Found.{Tells, or_fault};
ghost use Rattle.cat_names.specs.Forms as words;
ghost use Rattle.cat_check_names.specs.Shown.{shown};
ghost use Rattle.cat_check_forms.specs.Tabled.{IsTabled, names_at};
ghost use Rattle.cat_check_forms.specs.Taken.{content_bound, lent, part_named, pattern_bound};

use crate::Here;
use crate::cases::{case_named, content_type};
use crate::forms::bound;
use cat_names::{Fault, Local, Refusal};
use cat_pos::Pos;
use cat_scope::ArmPattern;
use cat_tree::{CaseName, Name, Pattern};
use cat_value::{Ty, copy_ty};

/// What fields are given to: a structure, or a scope that is called.
#[derive(Clone, Copy, PartialEq, Eq, Debug)]
pub enum Owner {
    Structure(u32),
    Scope(u32),
}

/// The field of that name, or the input or context, with its number and its type.
pub fn part_named<'a>(here: &Here<'a>, owner: Owner, name: &Name) -> Result<(u32, &'a Ty), Refusal>
    requires { IsTabled here.now }
    ensures { Tells (lent result)
        (or_fault (faults.NameUnknown name.now.pos) (part_named here.now.decls.now owner name.now.text)) }
{
    let found = match owner {
        Owner::Structure(structure) => here.tables.field(here.decls, structure, &name.text),
        Owner::Scope(scope) => input_named(here, scope, name),
    };
    match found {
        Some(part) => Ok(part),
        None => Err(Refusal::Refused(Fault::NameUnknown(name.pos))),
    }
}

/// The input or context of that name of a scope.
fn input_named<'a>(here: &Here<'a>, scope: u32, name: &Name) -> Option<(u32, &'a Ty)>
    requires { IsTabled here.now }
    ensures { shown result ≡ words.input_named here.now.decls.now scope name.now.text }
{
    let (number, item) = here.tables.item(here.decls, scope, &name.text)?;
    if !item.kind.may_be_given() {
        return None;
    }
    Some((number, &item.ty))
}

/// The pattern of an arm of a match for an enumeration, and the name that it binds.
pub fn arm_pattern(
    here: &Here,
    place: Pos,
    enumeration: u32,
    pattern: &Pattern,
) -> Result<(ArmPattern, Option<Local>), Refusal>
    requires { IsTabled here.now }
    ensures { Tells result (pattern_bound (names_at here.now) place enumeration pattern.now) }
{
    match pattern {
        Pattern::Anything => Ok((ArmPattern::Anything, None)),
        Pattern::Case(case, name) => case_pattern(here, place, enumeration, case, name),
    }
}

fn case_pattern(
    here: &Here,
    place: Pos,
    enumeration: u32,
    case: &CaseName,
    name: &Option<Name>,
) -> Result<(ArmPattern, Option<Local>), Refusal>
    requires { IsTabled here.now }
    ensures { Tells result (pattern_bound (names_at here.now) place enumeration (pattern.Case case.now name.now)) }
{
    let found = case_named(here, case)?;
    if found.0 != enumeration {
        return Err(Refusal::Refused(Fault::TypeMismatch(place)));
    }
    let local = bound_content(here, place, name, found)?;
    Ok((ArmPattern::Case(found.1, name.is_some()), local))
}

/// The name for the content of a case, where there is one.
fn bound_content(
    here: &Here,
    place: Pos,
    name: &Option<Name>,
    case: (u32, u32),
) -> Result<Option<Local>, Refusal>
    ensures { Tells result (content_bound place name.now (content_of here.now.decls.now case.0 case.1)) }
{
    let Some(name) = name else {
        return Ok(None);
    };
    let Some(ty) = content_type(here, case) else {
        return Err(Refusal::Refused(Fault::TypeMismatch(place)));
    };
    let ty = copy_ty(here.alloc, ty)?;
    Ok(Some(bound(here.alloc, name, ty)?))
}
