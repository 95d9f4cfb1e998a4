// Definitions, rules and assertions.
ghost use Rattle.std.specs.Prelude.{◌≡◌, Some, OnOk};
ghost use Rattle.cat_names.specs.Definitions as words;
ghost use Rattle.cat_names.specs.Found.{Tells};
ghost use Rattle.cat_names.specs.Meaning.{meant};
ghost use Rattle.cat_check_forms.specs.Tabled.{IsTabled, names_at};
ghost use Rattle.cat_check_exprs.specs.Sharing.{AreKnown};

use crate::conditions::{boolean, definition_condition, named_params, resolved};
use crate::heads::Head;
use crate::{Aim, KnownConditions, aim_of};
use cat_check_forms::Here;
use cat_check_operators::Resolved;
use cat_names::{Fault, Refusal};
use cat_pos::{List, Pos, Shared};
use cat_scope::{Assertion, Def, Expr, Literal};
use cat_tree::{Fulfilled, Lead, Name, Node, TargetName};

/// What a definition says where it holds: the type of its target is expected of it.
fn consequence(here: &Here, value: &Node, params: &[Name], aim: &Aim) -> Result<Resolved, Refusal>
    requires { IsTabled here.now }
    ensures { Tells result (meant (names_at here.now) value.now
        (words.named_params params.now aim.now.params.now) (Some aim.now.ty.now)) }
{
    let mut locals = named_params(here.alloc, params, aim.params)?;
    resolved(here, value, &mut locals, Some(aim.ty))
}

/// A definition in a block whose condition is shared: the type of its target is expected of its value.
pub fn definition(
    here: &Here,
    block: &Option<Node>,
    known: &mut KnownConditions,
    lead: &Lead,
    place: Pos,
    target: &TargetName,
    condition: &Option<Node>,
    value: &Node,
) -> Result<Def, Refusal>
    requires tabled { IsTabled here.now }
    requires known { AreKnown (names_at here.now) block.now known.old }
    ensures told { Tells result (words.definition_meant (names_at here.now) here.now.scope block.now lead.now place
        target.now condition.now value.now) }
    ensures kept { OnOk result (AreKnown (names_at here.now) block.now known.new) }
{
    let params = target.params.as_slice();
    let aim = aim_of(here, target)?;
    let head = Head::of(here.alloc, lead, place, &aim)?;
    let value = consequence(here, value, params, &aim)?;
    let condition = definition_condition(here, block, known, condition, params, aim.params)?;
    Ok(head.define(here.alloc, condition, value.into_expr().into_inner())?)
}

/// A rule in a block whose condition is shared: a definition of a condition variable as true or false.
pub fn rule(
    here: &Here,
    block: &Option<Node>,
    known: &mut KnownConditions,
    lead: &Lead,
    place: Pos,
    target: &TargetName,
    condition: &Option<Node>,
    fulfilled: Fulfilled,
) -> Result<Def, Refusal>
    requires tabled { IsTabled here.now }
    requires known { AreKnown (names_at here.now) block.now known.old }
    ensures told { Tells result (words.rule_meant (names_at here.now) here.now.scope block.now lead.now place target.now
        condition.now fulfilled) }
    ensures kept { OnOk result (AreKnown (names_at here.now) block.now known.new) }
{
    let aim = aim_of(here, target)?;
    if !aim.condition {
        return Err(Refusal::Refused(Fault::Misplaced(place)));
    }
    let head = Head::of(here.alloc, lead, place, &aim)?;
    let params = target.params.as_slice();
    let condition = definition_condition(here, block, known, condition, params, aim.params)?;
    let holds = Literal::Boolean(is_fulfilled(fulfilled));
    Ok(head.define(here.alloc, condition, Expr::Literal(place, holds))?)
}

/// What a rule says of its condition variable.
fn is_fulfilled(fulfilled: Fulfilled) -> bool
    ensures { result ≡ words.is_fulfilled fulfilled }
{
    match fulfilled {
        Fulfilled::Yes => true,
        Fulfilled::No => false,
    }
}

/// An assertion, which has to be a boolean and stands under no block's condition.
pub fn assertion(here: &Here, place: Pos, node: &Node) -> Result<Assertion, Refusal>
    requires { IsTabled here.now }
    ensures told { Tells result (words.assertion_meant (names_at here.now) place node.now) }
{
    let mut none = List::new(here.alloc);
    let condition = boolean(here, node, &mut none)?;
    let condition = Shared::new(here.alloc, condition.into_expr().into_inner())?;
    Ok(Assertion {
        condition,
        keyword: place,
    })
}
