// The condition of a block, which the block and its definitions share.
ghost use Rattle.std.specs.Prelude.{◌≡◌, IsTrue, Ok, IfOk, IfSome, OnOk, Option};
ghost use Rattle.cat_tree.specs.declared.expression.Node.{Node as NodeSeen};
ghost use Rattle.cat_scope.specs.Names.{Names};
ghost use Rattle.cat_names.specs.Found.{Tells};
ghost use Rattle.cat_check_forms.specs.Tabled.{IsTabled, names_at};
ghost use Rattle.cat_check_exprs.specs.Sharing.{AreKnown, block_found, block_part};

use crate::conditions::{condition, nameless_params};
use cat_check_forms::Here;
use cat_check_operators::Resolved;
use cat_names::Refusal;
use cat_pos::{List, Pos, Shared};
use cat_scope::Expr;
use cat_tree::Node;
use cat_value::{Ty, Tys, copy_ty, same_ty};
use std::alloc::{AllocError, Global};

/// A block's condition, which the block and its definitions share.
#[derive(Drop)]
pub struct BlockCondition {
    /// The position of its first token.
    pub first: Pos,
    pub expr: Shared<Expr>,
}

/// The condition of a block, where it has one, as definitions with parameters of these types have it.
#[derive(Drop)]
pub struct KnownCondition {
    pub types: Tys,
    pub condition: Option<BlockCondition>,
}

pub type KnownConditions = List<KnownCondition>;

/// What was resolved of a block's condition, to be shared.
fn block_part(alloc: Global, found: Option<Resolved>) -> Result<Option<BlockCondition>, AllocError>
    ensures { IfOk result (λ made. made ≡ block_part found) }
{
    match found {
        None => Ok(None),
        Some(found) => {
            let first = found.first();
            let expr = Shared::new(alloc, found.into_expr().into_inner())?;
            Ok(Some(BlockCondition { first, expr }))
        }
    }
}

/// What is shared, once more.
fn copy_part(part: &Option<BlockCondition>) -> Result<Option<BlockCondition>, AllocError>
    ensures { IfOk result (λ copied. copied ≡ part.now) }
{
    match part {
        None => Ok(None),
        Some(part) => Ok(Some(BlockCondition {
            first: part.first,
            expr: part.expr.copy()?,
        })),
    }
}

/// The condition of a block, where it has one, as a definition with parameters of these types has it.
fn block_condition(
    here: &Here,
    block: &Option<Node>,
    types: &[Ty],
) -> Result<Option<BlockCondition>, Refusal>
    requires { IsTabled here.now }
    ensures { Tells result (block_found (names_at here.now) block.now types.now) }
{
    let mut nameless = nameless_params(here.alloc, types)?;
    let found = condition(here, block, &mut nameless)?;
    Ok(block_part(here.alloc, found)?)
}

/// Whether two lists of types are one.
fn same_types(left: &[Ty], right: &[Ty]) -> bool
    ensures { IsTrue result → left.now ≡ right.now }
{
    if left.len() != right.len() {
        return false;
    }
    for (index, ty) in left.iter().enumerate() {
        if !same_ty(ty, &right[index]) {
            return false;
        }
    }
    true
}

fn copy_types(alloc: Global, types: &[Ty]) -> Result<Tys, AllocError>
    ensures { IfOk result (λ copied. copied ≡ types.now) }
{
    let mut copies = List::new(alloc);
    for ty in types {
        copies.push(copy_ty(alloc, ty)?)?;
    }
    Ok(copies)
}

/// Of what is known that for these types.
fn known_for<'a>(known: &'a [KnownCondition], types: &[Ty]) -> Option<&'a KnownCondition>
    ensures { (ns : Names) (block : Option NodeSeen) → AreKnown ns block known.now
        → IfSome result (λ c. block_found ns block types.now ≡ Ok c.now.condition) }
{
    for one in known {
        if same_types(one.types.as_slice(), types) {
            return Some(one);
        }
    }
    None
}

/// Resolves the condition of a block for these types, and keeps it.
fn add_known(
    here: &Here,
    block: &Option<Node>,
    types: &[Ty],
    known: &mut KnownConditions,
) -> Result<Option<BlockCondition>, Refusal>
    requires tabled { IsTabled here.now }
    requires known { AreKnown (names_at here.now) block.now known.old }
    ensures told { Tells result (block_found (names_at here.now) block.now types.now) }
    ensures kept { OnOk result (AreKnown (names_at here.now) block.now known.new) }
{
    let condition = block_condition(here, block, types)?;
    let types = copy_types(here.alloc, types)?;
    let kept = copy_part(&condition)?;
    known.push(KnownCondition {
        types,
        condition: kept,
    })?;
    Ok(condition)
}

/// The condition of a block as a definition with parameters of these types has it, resolved where it isn't known.
pub fn condition_for(
    here: &Here,
    block: &Option<Node>,
    types: &[Ty],
    known: &mut KnownConditions,
) -> Result<Option<BlockCondition>, Refusal>
    requires tabled { IsTabled here.now }
    requires known { AreKnown (names_at here.now) block.now known.old }
    ensures told { Tells result (block_found (names_at here.now) block.now types.now) }
    ensures kept { OnOk result (AreKnown (names_at here.now) block.now known.new) }
{
    let Some(_) = block else {
        return Ok(None);
    };
    match known_for(known.as_slice(), types) {
        Some(one) => Ok(copy_part(&one.condition)?),
        None => add_known(here, block, types, known),
    }
}
