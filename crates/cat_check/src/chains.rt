// Chains of calls that are too long.
ghost use Rattle.std.specs.Prelude.{◌≡◌, IfOk, IfErr};
ghost use Rattle.cat_order.specs.Order.{IsOrder};
ghost use Rattle.cat_tree.specs.declared.program.Tree.{Tree};
ghost use Rattle.cat_scope.specs.Chains.{HasShortChains};
ghost use Rattle.cat_scope.specs.Orders.{item_dependencies, function_calls, scope_dependencies};
ghost use Rattle.cat_names.specs.Accepted.{IsMeant};
ghost use Rattle.cat_check.specs.Cause.{Because};
ghost use Rattle.cat_check.specs.Outlined.{IsMeantIn, outline_of};
ghost use Rattle.cat_check.specs.inside.Chained.{AreShort, IsChainFault, IsFunctionFault, IsLongFunction};
ghost use Rattle.cat_check.specs.inside.Ordered.{AreInOrder, AreItemized, IsItemized};

use crate::Outline;
use cat_depend::{long_function, long_scope};
use cat_names::{Fault, Refusal};
use cat_pos::Numbers;
use cat_scope::{Bodies, Body};
use cat_value::{Decls, ItemDecls, declarations_are_sound};
use std::alloc::{AllocError, Global};

/// Refuses where a chain of the functions of a scope is too long.
fn refuse_long(alloc: Global, items: &ItemDecls, body: &Body) -> Result<(), Refusal>
    requires items { IsItemized items.now body.now.defs }
    requires order { IsOrder (item_dependencies items.now body.now.defs) body.now.order }
    ensures short { IfOk result (λ _. HasShortChains (function_calls items.now body.now.defs)) }
    ensures cause { IfErr result (Because (IsLongFunction items.now body.now.defs)) }
{
    let defs = body.defs.as_slice();
    let long = long_function(alloc, items.as_slice(), defs, body.order.as_slice())?;
    match long {
        None => Ok(()),
        Some(function) => {
            let pos = items.at(function as usize).pos;
            Err(Refusal::Refused(Fault::TooMany(pos)))
        }
    }
}

/// Refuses where a chain of functions is too long.
pub fn refuse_long_functions(alloc: Global, decls: &Decls, bodies: &Bodies) -> Result<(), Refusal>
    requires items { AreItemized decls.now.scopes bodies.now }
    requires order { AreInOrder decls.now.scopes bodies.now }
    ensures short { IfOk result (λ _. AreShort decls.now.scopes bodies.now) }
    ensures cause { IfErr result (Because (IsFunctionFault decls.now.scopes bodies.now)) }
{
    for (number, body) in bodies.as_slice().iter().enumerate() {
        let scope = decls.scopes.at(number);
        refuse_long(alloc, &scope.items, body)?;
    }
    Ok(())
}

/// Refuses where a chain of scopes is too long.
pub fn refuse_long_calls(
    alloc: Global,
    outline: &Outline,
    decls: &Decls,
    bodies: &Bodies,
    order: &Numbers,
) -> Result<(), Refusal>
    requires meant { IsMeantIn outline.now decls.now bodies.now }
    requires order { IsOrder (scope_dependencies decls.now.scopes bodies.now) order.now }
    ensures short { IfOk result (λ _. HasShortChains (scope_dependencies decls.now.scopes bodies.now)) }
    ensures cause { IfErr result (λ refusal. (tree : Tree) → outline.now ≡ outline_of tree
        → IsMeant tree decls.now bodies.now → Because (IsChainFault tree decls.now bodies.now) refusal) }
{
    declarations_are_sound(decls);
    let long = long_scope(alloc, bodies.as_slice(), order.as_slice())?;
    match long {
        None => Ok(()),
        Some(scope) => {
            let pos = *outline.scopes.at(scope as usize);
            Err(Refusal::Refused(Fault::TooMany(pos)))
        }
    }
}
