// Of which structure or enumeration the values of an expression are.
ghost use Rattle.std.specs.Prelude.{◌≡◌, IfOk, map, slice_get};
ghost use Rattle.std.specs.Option.{option_copied};
ghost use Rattle.cat_table.specs.NamedTypes as names;
ghost use Rattle.cat_table.specs.Told as words;

use crate::named_type::{
    NamedType, called_output, case_in, content_named, field_in, field_named, item_named, named,
    output_at,
};
use crate::scene::TableScene;
use cat_pos::{Boxed, List};
use cat_scope::{Arm, ArmPattern, Arms, Expr};
use cat_value::{ItemDecl, Ty};
use std::alloc::{AllocError, Global};

/// What the types of local names are, where they have names.
type NamedLocals = List<Option<NamedType>>;

/// What an expression tells under local names that tell this.
#[cycle(telling)]
#[tactic(auto, using(crate::proofs::ToldEquations::equations))]
fn told(
    here: &TableScene,
    locals: &[Option<NamedType>],
    e: &Expr,
) -> Result<Option<NamedType>, AllocError>
    ensures { IfOk result (λ found. found ≡ words.told here.now.decls.now here.now.items.now e.now locals.now) }
{
    match e {
        Expr::Item(_, item) => Ok(item_named(here.items.get(*item as usize))),
        Expr::Output(_, item, output) => {
            let item = here.items.get(*item as usize);
            Ok(item_named(called_output(here.decls, *output, item)))
        }
        Expr::Local(_, local) => Ok(local_at(locals, *local)),
        Expr::Field(_, of, field) => {
            let of = told(here, locals, of.get())?;
            Ok(field_named(field_in(here.decls, *field, of)))
        }
        Expr::If(_, _, yes, _) => told(here, locals, yes.get()),
        Expr::Match(_, of, arms) => told_arms(here, locals, of, arms.get()),
        Expr::Case(_, enumeration, _, _) => Ok(Some(NamedType::Enumeration(*enumeration))),
        Expr::Structure(_, structure, _) => Ok(Some(NamedType::Structure(*structure))),
        Expr::Combine(_, _, start, _) => told(here, locals, start.get()),
        Expr::Call(_, function, _) => Ok(item_named(here.items.get(*function as usize))),
        Expr::ScopeCall(_, scope, _, output) => {
            Ok(item_named(output_at(here.decls, *scope, *output)))
        }
        Expr::Literal(_, _)
        | Expr::Unary(_, _, _)
        | Expr::Binary(_, _, _, _, _)
        | Expr::And(_, _, _)
        | Expr::Or(_, _, _)
        | Expr::IsCase(_, _, _, _)
        | Expr::List(_, _)
        | Expr::ForAll(_, _, _)
        | Expr::Exists(_, _, _)
        | Expr::Map(_, _, _)
        | Expr::Filter(_, _, _)
        | Expr::Contains(_, _, _, _)
        | Expr::Length(_, _)
        | Expr::Sum(_, _, _) => Ok(None),
    }
}

/// What a local name tells.
fn local_at(locals: &[Option<NamedType>], number: u32) -> Option<NamedType>
    ensures { result ≡ words.found_in (slice_get locals.now number) }
{
    match locals.get(number as usize) {
        Some(found) => *found,
        None => None,
    }
}

/// What arms tell: the first one does.
#[cycle(telling)]
fn told_arms(
    here: &TableScene,
    locals: &[Option<NamedType>],
    of: &Boxed<Expr>,
    arms: &Arms,
) -> Result<Option<NamedType>, AllocError>
    ensures { IfOk result (λ found. found ≡ words.arms_told here.now.decls.now
        (words.told here.now.decls.now here.now.items.now of.now locals.now)
        (map (λ a. (a.pattern, words.told here.now.decls.now here.now.items.now a.body)) arms.now) locals.now) }
{
    match arms.as_slice() {
        [] => Ok(None),
        [first, _rest @ ..] => {
            let of = told(here, locals, of.get())?;
            told_arm(here, locals, of, first)
        }
    }
}

/// What an arm tells, of a match on a value that is of this.
#[cycle(telling)]
fn told_arm(
    here: &TableScene,
    locals: &[Option<NamedType>],
    of: Option<NamedType>,
    arm: &Arm,
) -> Result<Option<NamedType>, AllocError>
    ensures { IfOk result (λ found. found ≡ words.told here.now.decls.now here.now.items.now arm.now.body
        (words.arm_locals here.now.decls.now of arm.now.pattern locals.now)) }
{
    let inside = arm_locals(here, locals, of, arm.pattern)?;
    told(here, inside.as_slice(), &arm.body)
}

/// The local names in an arm.
fn arm_locals(
    here: &TableScene,
    locals: &[Option<NamedType>],
    of: Option<NamedType>,
    pattern: ArmPattern,
) -> Result<NamedLocals, AllocError>
    ensures { IfOk result (λ inside. inside ≡ words.arm_locals here.now.decls.now of pattern locals.now) }
{
    let mut inside = List::from_slice(here.alloc, locals)?;
    match pattern {
        ArmPattern::Case(case, true) => {
            inside.push(content_named(case_in(here.decls, case, of)))?;
            Ok(inside)
        }
        ArmPattern::Case(_, false) | ArmPattern::Anything => Ok(inside),
    }
}

/// What types are.
fn all_named(alloc: Global, types: &[Ty]) -> Result<NamedLocals, AllocError>
    ensures { IfOk result (λ found. found ≡ map names.named types.now) }
{
    let mut found = List::new(alloc);
    for ty in types {
        found.push(named(ty))?;
    }
    Ok(found)
}

/// What the parameters of a function are.
fn params_named(alloc: Global, item: Option<&ItemDecl>) -> Result<NamedLocals, AllocError>
    ensures { IfOk result (λ found. found ≡ words.params_named (option_copied item.entry)) }
{
    match item {
        Some(item) => all_named(alloc, item.params.as_slice()),
        None => Ok(List::new(alloc)),
    }
}

/// The structure or the enumeration of which an expression is that stands in the definitions of a function or of a
/// variable. It costs the way down to the part that tells it.
pub(crate) fn type_told(
    here: &TableScene,
    function: u32,
    e: &Expr,
) -> Result<Option<NamedType>, AllocError>
    ensures { IfOk result (λ found. found ≡ words.type_told here.now.decls.now here.now.items.now function e.now) }
{
    let locals = params_named(here.alloc, here.items.get(function as usize))?;
    told(here, locals.as_slice(), e)
}
