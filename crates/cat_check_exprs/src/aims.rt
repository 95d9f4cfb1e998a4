// What definitions are for.
ghost use Rattle.std.specs.Prelude.{◌≡◌};
ghost use Rattle.cat_scope.specs.Naming as naming;
ghost use Rattle.cat_names.specs.Aims as words;
ghost use Rattle.cat_names.specs.Found.{Tells};
ghost use Rattle.cat_names.specs.Lookup.{item_named};
ghost use Rattle.cat_names.specs.Types.{structure_of};
ghost use Rattle.cat_check_forms.specs.Tabled.{IsTabled, names_at};
ghost use Rattle.cat_check_exprs.specs.Aimed.{inner_in, lent};

use cat_check_forms::Here;
use cat_names::{Fault, Refusal};
use cat_pos::Pos;
use cat_tree::{Name, TargetName};
use cat_value::{ItemDecl, Kind, Target, Ty};

/// What a definition is for: its target, the types of its parameters, its own, and whether it is a condition.
#[derive(Clone, Copy)]
pub struct Aim<'a> {
    pub target: Target,
    pub params: &'a [Ty],
    pub ty: &'a Ty,
    pub condition: bool,
}

/// What a definition is for that names its target so, with as many parameters as the target has.
pub fn aim_of<'a>(here: &Here<'a>, target: &TargetName) -> Result<Aim<'a>, Refusal>
    requires { IsTabled here.now }
    ensures told { Tells (lent result) (words.aim_of (names_at here.now) here.now.scope target.now) }
{
    let aim = aim_at(here, &target.name, &target.inner)?;
    if target.params.len() != aim.params.len() {
        return Err(Refusal::Refused(Fault::TypeMismatch(target.name.pos)));
    }
    Ok(aim)
}

fn aim_at<'a>(here: &Here<'a>, name: &Name, inner: &Option<Name>) -> Result<Aim<'a>, Refusal>
    requires { IsTabled here.now }
    ensures { Tells (lent result) (words.aim_at (names_at here.now) here.now.scope name.now inner.now) }
{
    match inner {
        None => own_aim(here, name),
        Some(inner) => called_aim(here, name, inner),
    }
}

/// Whether definitions may be of an item.
fn is_defined(item: &ItemDecl) -> bool
    ensures { result ≡ naming.is_defined item.now }
{
    match item.kind {
        Kind::Output | Kind::Internal | Kind::Context | Kind::ContextOutput => true,
        Kind::Input | Kind::InputOutput | Kind::Called(_) => false,
    }
}

/// A variable of the scope.
fn own_aim<'a>(here: &Here<'a>, name: &Name) -> Result<Aim<'a>, Refusal>
    requires { IsTabled here.now }
    ensures { Tells (lent result) (words.own_aim here.now.scope name.now.pos
        (item_named name.now.text (names_at here.now).items)) }
{
    let Some((number, item)) = here.tables.item(here.decls, here.scope, &name.text) else {
        return Err(Refusal::Refused(Fault::NameUnknown(name.pos)));
    };
    if !is_defined(item) {
        return Err(Refusal::Refused(Fault::Misplaced(name.pos)));
    }
    Ok(Aim {
        target: Target {
            scope: here.scope,
            item: number,
            inner: None,
        },
        params: item.params.as_slice(),
        ty: &item.ty,
        condition: item.condition,
    })
}

/// A variable of a scope that the item `name` calls.
fn called_aim<'a>(here: &Here<'a>, name: &Name, inner: &Name) -> Result<Aim<'a>, Refusal>
    requires { IsTabled here.now }
    ensures { Tells (lent result) (words.called_aim (names_at here.now) here.now.scope name.now.pos inner.now
        (item_named name.now.text (names_at here.now).items)) }
{
    let Some((number, item)) = here.tables.item(here.decls, here.scope, &name.text) else {
        return Err(Refusal::Refused(Fault::NameUnknown(name.pos)));
    };
    match item.kind {
        Kind::Called(scope) => inner_aim(here, (name.pos, number), scope, inner),
        Kind::Input
        | Kind::Output
        | Kind::Internal
        | Kind::Context
        | Kind::InputOutput
        | Kind::ContextOutput => Err(Refusal::Refused(part_fault(here, name.pos, &item.ty, inner))),
    }
}

/// The number of a structure.
#[tactic(auto, using(crate::proofs::Views::types))]
fn structure_of(ty: &Ty) -> Option<u32>
    ensures { result ≡ structure_of ty.now }
{
    match ty {
        Ty::Structure(structure) => Some(*structure),
        _ => None,
    }
}

/// What stands against `x.y` where x is no called scope and has that type.
fn part_fault(here: &Here, place: Pos, ty: &Ty, part: &Name) -> Fault
    requires { IsTabled here.now }
    ensures { result ≡ words.part_fault here.now.decls.now place part.now (structure_of ty.now) }
{
    let Some(structure) = structure_of(ty) else {
        return Fault::NameUnknown(part.pos);
    };
    match here.tables.field(here.decls, structure, &part.text) {
        Some(_) => Fault::Misplaced(place),
        None => Fault::NameUnknown(part.pos),
    }
}

/// An input or a context of the scope that the item of that position and number calls.
fn inner_aim<'a>(
    here: &Here<'a>,
    called: (Pos, u32),
    scope: u32,
    inner: &Name,
) -> Result<Aim<'a>, Refusal>
    requires { IsTabled here.now }
    ensures { Tells (lent result) (inner_in here.now.decls.now here.now.scope called.0 inner.now called.1 scope) }
{
    let Some((number, item)) = here.tables.item(here.decls, scope, &inner.text) else {
        return Err(Refusal::Refused(Fault::NameUnknown(inner.pos)));
    };
    if let Kind::Called(_) = item.kind {
        return Err(Refusal::Refused(Fault::NameUnknown(inner.pos)));
    }
    if !item.kind.may_be_given() {
        return Err(Refusal::Refused(Fault::Misplaced(called.0)));
    }
    Ok(Aim {
        target: Target {
            scope: here.scope,
            item: called.1,
            inner: Some(number),
        },
        params: &[],
        ty: &item.ty,
        condition: item.condition,
    })
}
