// Conditions, of blocks and of definitions.
ghost use Rattle.std.specs.Prelude.{◌≡◌, None, Some, IfOk, OnOk};
ghost use Rattle.std.specs.Option.{option_copied};
ghost use Rattle.cat_names.specs.Definitions as words;
ghost use Rattle.cat_names.specs.Found.{Tells};
ghost use Rattle.cat_names.specs.Meaning.{meant};
ghost use Rattle.cat_check_forms.specs.Tabled.{IsTabled, names_at};
ghost use Rattle.cat_check_exprs.specs.Sharing.{AreKnown, joined, own_found};

use crate::inferred;
use crate::known::{BlockCondition, KnownConditions, condition_for};
use cat_check_forms::Here;
use cat_check_operators::{Resolved, as_expected};
use cat_names::{Local, Locals, Refusal, Typed};
use cat_pos::{List, Shared, Text};
use cat_scope::Expr;
use cat_tree::{Name, Node};
use cat_value::{Ty, copy_ty};
use std::alloc::{AllocError, Global};

/// What an expression means, as forms take it.
pub fn resolved(
    here: &Here,
    node: &Node,
    locals: &mut Locals,
    expected: Option<&Ty>,
) -> Result<Resolved, Refusal>
    requires { IsTabled here.now }
    ensures told { Tells result (meant (names_at here.now) node.now locals.old (option_copied expected.entry)) }
    ensures kept { OnOk result (locals.new ≡ locals.old) }
{
    let Typed {
        first,
        operator,
        expr,
        ty,
    } = inferred(here, node, locals, expected)?;
    Resolved::new(here.alloc, first, operator, expr, ty)
}

/// An expression that has to be a boolean.
pub fn boolean(here: &Here, node: &Node, locals: &mut Locals) -> Result<Resolved, Refusal>
    requires { IsTabled here.now }
    ensures told { Tells result (words.boolean_of (names_at here.now) node.now locals.old) }
    ensures kept { OnOk result (locals.new ≡ locals.old) }
{
    let found = resolved(here, node, locals, None)?;
    as_expected(Some(&Ty::Boolean), found)
}

/// A condition, where there is one.
pub fn condition(
    here: &Here,
    condition: &Option<Node>,
    locals: &mut Locals,
) -> Result<Option<Resolved>, Refusal>
    requires { IsTabled here.now }
    ensures told { Tells result (words.condition_meant (names_at here.now) condition.now locals.old) }
    ensures kept { OnOk result (locals.new ≡ locals.old) }
{
    match condition {
        None => Ok(None),
        Some(condition) => {
            let found = boolean(here, condition, locals)?;
            Ok(Some(found))
        }
    }
}

/// A definition's own condition, in a block without one.
fn alone(alloc: Global, own: Option<Resolved>) -> Result<Option<Shared<Expr>>, AllocError>
    ensures { IfOk result (λ made. made ≡ joined None own) }
{
    match own {
        None => Ok(None),
        Some(own) => Ok(Some(Shared::new(alloc, own.into_expr().into_inner())?)),
    }
}

/// The condition of a block, and behind it that of a definition in it, where it has one.
fn behind_block(
    alloc: Global,
    block: &BlockCondition,
    own: Option<Resolved>,
) -> Result<Option<Shared<Expr>>, AllocError>
    ensures { IfOk result (λ made. made ≡ joined (Some block.now) own) }
{
    let shared = block.expr.copy()?;
    match own {
        None => Ok(Some(shared)),
        Some(own) => {
            let both = Expr::And(block.first, shared, own.into_expr());
            Ok(Some(Shared::new(alloc, both)?))
        }
    }
}

/// The condition of a block and that of a definition in it, where both hold.
fn joined(
    alloc: Global,
    block: &Option<BlockCondition>,
    own: Option<Resolved>,
) -> Result<Option<Shared<Expr>>, AllocError>
    ensures { IfOk result (λ made. made ≡ joined block.now own) }
{
    match block {
        None => alone(alloc, own),
        Some(block) => behind_block(alloc, block, own),
    }
}

/// Parameters under their names.
pub fn named_params(alloc: Global, names: &[Name], mut types: &[Ty]) -> Result<Locals, AllocError>
    ensures { IfOk result (λ locals. locals ≡ words.named_params names.now types.entry.now) }
{
    let mut locals = List::new(alloc);
    for name in names {
        let Some((ty, rest)) = types.split_first() else {
            return Ok(locals);
        };
        locals.push(Local {
            name: name.text.copy()?,
            ty: copy_ty(alloc, ty)?,
        })?;
        types = rest;
    }
    Ok(locals)
}

/// Parameters without names, as a block's condition has them.
pub fn nameless_params(alloc: Global, types: &[Ty]) -> Result<Locals, AllocError>
    ensures { IfOk result (λ locals. locals ≡ words.nameless_params types.now) }
{
    let mut locals = List::new(alloc);
    for ty in types {
        locals.push(Local {
            name: Text::from_str(alloc, "")?,
            ty: copy_ty(alloc, ty)?,
        })?;
    }
    Ok(locals)
}

/// The condition of a definition with these parameters, behind that of its block.
fn own_condition(
    here: &Here,
    block: &Option<BlockCondition>,
    own: &Option<Node>,
    params: &[Name],
    types: &[Ty],
) -> Result<Option<Shared<Expr>>, Refusal>
    requires { IsTabled here.now }
    ensures { Tells result (own_found (names_at here.now) block.now own.now params.now types.now) }
{
    let mut named = named_params(here.alloc, params, types)?;
    let found = condition(here, own, &mut named)?;
    Ok(joined(here.alloc, block, found)?)
}

/// The condition of a definition with these parameters, in a block whose condition is shared by definitions with
/// parameters of the same types, behind which the names bound in it are counted.
pub fn definition_condition(
    here: &Here,
    block: &Option<Node>,
    known: &mut KnownConditions,
    own: &Option<Node>,
    params: &[Name],
    types: &[Ty],
) -> Result<Option<Shared<Expr>>, Refusal>
    requires tabled { IsTabled here.now }
    requires known { AreKnown (names_at here.now) block.now known.old }
    ensures told { Tells result
        (words.whole_condition (names_at here.now) block.now own.now params.now types.now) }
    ensures kept { OnOk result (AreKnown (names_at here.now) block.now known.new) }
{
    let block = condition_for(here, block, types, known)?;
    own_condition(here, &block, own, params, types)
}
