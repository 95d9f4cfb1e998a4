// What names of values stand for.
ghost use Rattle.std.specs.Prelude.{◌≡◌, ◌<◌, IfOk, IfSome, length};
ghost use Rattle.std.specs.Option.{option_copied};
ghost use Rattle.cat_tree.specs.declared.expression.Node.TheViews.{out-Node};
ghost use Rattle.cat_names.specs.Found.{Tells};
ghost use Rattle.cat_names.specs.Forms as forms;
ghost use Rattle.cat_names.specs.Lookup as lookups;
ghost use Rattle.cat_names.specs.Meaning.{name_alone};
ghost use Rattle.cat_names.specs.Naming as words;
ghost use Rattle.cat_check_names.specs.Shown.{shown};
ghost use Rattle.cat_check_forms.specs.Tabled.{IsTabled, names_at};
ghost use Rattle.cat_check_forms.specs.Taken.{at_number, lent, output_found};

use crate::Here;
use cat_check_operators::Resolved;
use cat_names::{Fault, Local, Locals, Refusal};
use cat_pos::{Pos, Text};
use cat_scope::Expr;
use cat_tree::{Name, Node};
use cat_value::{ItemDecl, Kind, Ty, copy_ty};
use std::alloc::AllocError;

/// The last bound name of that spelling, with its number and its type.
fn innermost<'a>(locals: &'a Locals, name: &Text) -> Result<Option<(u32, &'a Ty)>, AllocError>
    ensures { IfOk result (λ found. shown found ≡ lookups.innermost name.now locals.now) }
{
    match last_named(locals.as_slice(), name) {
        Some(number) => match u32::try_from(number) {
            Ok(narrow) => Ok(Some((narrow, &locals.at(number).ty))),
            Err(_) => Err(AllocError),
        },
        None => Ok(None),
    }
}

fn last_named(locals: &[Local], name: &Text) -> Option<usize>
    ensures last { at_number result locals.now ≡ lookups.innermost name.now locals.now }
    ensures within { IfSome result (λ number. number < length locals.now) }
{
    let mut last = None;
    for (number, local) in locals.iter().enumerate() {
        if local.name != *name {
            continue;
        }
        last = Some(number);
    }
    last
}

/// What a name stands for as a value: the innermost bound name, or else an item.
pub fn name(here: &Here, name: &Name, locals: &Locals) -> Result<Resolved, Refusal>
    requires { IsTabled here.now }
    ensures { Tells result (words.name_found (names_at here.now) name.now locals.now) }
{
    match innermost(locals, &name.text)? {
        Some((number, ty)) => {
            let ty = copy_ty(here.alloc, ty)?;
            let expr = Expr::Local(name.pos, number);
            Resolved::new(here.alloc, name.pos, name.pos, expr, ty)
        }
        None => item(here, name),
    }
}

/// An item that is used as a value.
fn item(here: &Here, name: &Name) -> Result<Resolved, Refusal>
    requires { IsTabled here.now }
    ensures { Tells result
        (words.item_found name.now.pos (lookups.item_named name.now.text (names_at here.now).items)) }
{
    let Some((number, item)) = here.tables.item(here.decls, here.scope, &name.text) else {
        return Err(Refusal::Refused(Fault::NameUnknown(name.pos)));
    };
    if !item.is_plain() {
        return Err(Refusal::Refused(Fault::TypeMismatch(name.pos)));
    }
    let ty = copy_ty(here.alloc, &item.ty)?;
    let expr = Expr::Item(name.pos, number);
    Resolved::new(here.alloc, name.pos, name.pos, expr, ty)
}

/// Whether an item is a variable that is no function.
/// The function that a name stands for where it is called, with its number: a bound name is none.
pub fn function<'a>(
    here: &Here<'a>,
    name: &Name,
    locals: &Locals,
) -> Result<(u32, &'a ItemDecl), Refusal>
    requires { IsTabled here.now }
    ensures { Tells (lent result) (words.function_found (names_at here.now) name.now locals.now) }
{
    match innermost(locals, &name.text)? {
        Some(_) => Err(Refusal::Refused(Fault::TypeMismatch(name.pos))),
        None => called_function(here, name),
    }
}

fn called_function<'a>(here: &Here<'a>, name: &Name) -> Result<(u32, &'a ItemDecl), Refusal>
    requires { IsTabled here.now }
    ensures { Tells (lent result)
        (words.called_item name.now.pos (lookups.item_named name.now.text (names_at here.now).items)) }
{
    let Some((number, item)) = here.tables.item(here.decls, here.scope, &name.text) else {
        return Err(Refusal::Refused(Fault::NameUnknown(name.pos)));
    };
    if !item.is_function() {
        return Err(Refusal::Refused(Fault::TypeMismatch(name.pos)));
    }
    Ok((number, item))
}

/// The output of that name, where the base of `.` is a called scope.
pub fn output(
    here: &Here,
    base: &Node,
    name: &Name,
    locals: &Locals,
) -> Result<Option<Resolved>, Refusal>
    requires { IsTabled here.now }
    ensures { Tells result (output_found (names_at here.now) name.now
        (words.called_scope (names_at here.now) (name_alone (out-Node base.now)) locals.now)) }
{
    let Node::Name(called) = base else {
        return Ok(None);
    };
    if innermost(locals, &called.text)?.is_some() {
        return Ok(None);
    }
    output_of_item(here, called, name)
}

/// The output of that name of an item that is a called scope.
fn output_of_item(here: &Here, called: &Name, name: &Name) -> Result<Option<Resolved>, Refusal>
    requires { IsTabled here.now }
    ensures { Tells result (output_found (names_at here.now) name.now
        (words.as_called called.now.pos (lookups.item_named called.now.text (names_at here.now).items))) }
{
    let Some((number, item)) = here.tables.item(here.decls, here.scope, &called.text) else {
        return Ok(None);
    };
    match item.kind {
        Kind::Called(scope) => {
            let found = output_of(here, called.pos, number, scope, name)?;
            Ok(Some(found))
        }
        Kind::Input
        | Kind::Output
        | Kind::Internal
        | Kind::Context
        | Kind::InputOutput
        | Kind::ContextOutput => Ok(None),
    }
}

fn output_of(
    here: &Here,
    first: Pos,
    item: u32,
    scope: u32,
    name: &Name,
) -> Result<Resolved, Refusal>
    requires { IsTabled here.now }
    ensures { Tells result (forms.output_of (names_at here.now) name.now
        (record { first = first; item = item; scope = scope })) }
{
    let Some((number, ty)) = here.tables.output(here.decls, scope, &name.text) else {
        return Err(Refusal::Refused(Fault::NameUnknown(name.pos)));
    };
    let ty = copy_ty(here.alloc, ty)?;
    let expr = Expr::Output(first, item, number);
    Resolved::new(here.alloc, first, first, expr, ty)
}
