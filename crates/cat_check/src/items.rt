// Items behind those that they depend on.
ghost use Rattle.std.specs.Prelude.{◌≡◌, IfOk, IfErr, map};
ghost use Rattle.cat_order.specs.Order.{IsOrder};
ghost use Rattle.cat_scope.specs.Orders.{item_dependencies};
ghost use Rattle.cat_names.specs.Accepted.{unordered};
ghost use Rattle.cat_names.specs.Cycles.{IsItemCycle};
ghost use Rattle.cat_check.specs.Cause.{Because};
ghost use Rattle.cat_check.specs.inside.Ordered.{IsItemized, IsCyclicItem, IsWithOrder, AreInOrder, AreItemized};

use cat_depend::item_order;
use cat_names::{Fault, Refusal};
use cat_order::OrderRefusal;
use cat_pos::{List, Numbers};
use cat_scope::{Bodies, Body, Defs};
use cat_value::{Decls, ItemDecls};
use std::alloc::Global;

/// The order of the items of a scope, or the name of one that depends on itself.
fn order_of(alloc: Global, items: &ItemDecls, defs: &Defs) -> Result<Numbers, Refusal>
    requires { IsItemized items.now defs.now }
    ensures order { IfOk result (IsOrder (item_dependencies items.now defs.now)) }
    ensures cause { IfErr result (Because (IsCyclicItem items.now defs.now)) }
{
    match item_order(alloc, items.as_slice(), defs.as_slice()) {
        Ok(order) => Ok(order),
        Err(OrderRefusal::Memory) => Err(Refusal::Memory),
        Err(OrderRefusal::Cycle(item)) => {
            let pos = items.at(item as usize).pos;
            Err(Refusal::Refused(Fault::VariableCycle(pos)))
        }
    }
}

fn with_order(body: Body, order: Numbers) -> Body
    ensures { IsWithOrder body order result }
{
    let Body {
        defs,
        assertions,
        source,
        rounding,
        order: _,
        calls,
    } = body;
    Body {
        defs,
        assertions,
        source,
        rounding,
        order,
        calls,
    }
}

/// Each body with the order of its items, or the name of an item that depends on itself.
pub fn items_in_order(alloc: Global, decls: &Decls, bodies: Bodies) -> Result<Bodies, Refusal>
    requires { AreItemized decls.now.scopes bodies }
    ensures kept { IfOk result (λ made. map unordered made ≡ map unordered bodies) }
    ensures order { IfOk result (AreInOrder decls.now.scopes) }
    ensures cause { IfErr result (Because (IsItemCycle decls.now bodies)) }
{
    let mut made = List::new(alloc);
    for body in bodies.into_vec() {
        let scope = decls.scopes.at(made.len());
        let order = order_of(alloc, &scope.items, &body.defs)?;
        made.push(with_order(body, order))?;
    }
    Ok(made)
}
