// What items depend on, and the functions that functions call.
ghost use Rattle.std.specs.Prelude.{◌≡◌, ◌<◌, length, All, IfOk, IfErr};
ghost use Rattle.cat_order.specs.Order.{AreItems, IsOrder};
ghost use Rattle.cat_scope.specs.Orders.{item_dependencies, function_calls};
ghost use Rattle.cat_depend.specs.Causes.{HasItemCause};
ghost use Rattle.cat_depend.specs.Past.{TellsPast};
ghost use Rattle.cat_depend.specs.inside.Wanted.{wants, lists_from};

use crate::chains::past_longest;
use crate::naming::{Wanted, add_definition};
use cat_order::{OrderRefusal, order, the_order_lists_items, the_order_puts_dependencies_first};
use cat_pos::{ENTRIES_BOUND, Numbers, empty_lists};
use cat_scope::Def;
use cat_value::ItemDecl;
use std::alloc::{AllocError, Global};

/// Whether what the definitions of an item name is wanted.
fn wants(wanted: Wanted, item: &ItemDecl) -> bool
    ensures { result ≡ wants wanted item.now }
{
    match wanted {
        Wanted::Functions => item.is_function(),
        Wanted::Items | Wanted::Scopes => true,
    }
}

/// For each item, what its definitions name of these.
fn named_by_items(
    alloc: Global,
    wanted: Wanted,
    items: &[ItemDecl],
    defs: &[Def],
) -> Result<Vec<Numbers>, AllocError>
    requires { All (λ d. d.target.item < length items.now) defs.now }
    ensures { IfOk result (λ lists. lists.items ≡ lists_from wanted defs.now 0 items.now) }
{
    let mut lists = empty_lists(alloc, items.len())?;
    for def in defs {
        let item = def.target.item as usize;
        if wants(wanted, &items[item]) {
            add_definition(&mut lists[item], wanted, def)?;
        }
    }
    Ok(lists)
}

/// The items of a scope, each behind those that it depends on; or one that depends on itself, at once or through
/// others. It takes time in proportion to the definitions, and to n log n for n items.
pub fn item_order(alloc: Global, items: &[ItemDecl], defs: &[Def]) -> Result<Numbers, OrderRefusal>
    requires few { length items.now < ENTRIES_BOUND }
    requires targets { All (λ d. d.target.item < length items.now) defs.now }
    requires items { AreItems (item_dependencies items.now defs.now) }
    ensures order { IfOk result (IsOrder (item_dependencies items.now defs.now)) }
    ensures cause { IfErr result (HasItemCause (item_dependencies items.now defs.now)) }
{
    let deps = named_by_items(alloc, Wanted::Items, items, defs)?;
    order(alloc, items.len() as u32, &deps)
}

/// A function that begins a chain of calls of one function more than a chain may have, and of no more, where there is
/// one. The items stand in their order.
pub fn long_function(
    alloc: Global,
    items: &[ItemDecl],
    defs: &[Def],
    order: &[u32],
) -> Result<Option<u32>, AllocError>
    requires targets { All (λ d. d.target.item < length items.now) defs.now }
    requires order { IsOrder (item_dependencies items.now defs.now) order.now }
    ensures { IfOk result (TellsPast (function_calls items.now defs.now)) }
{
    the_order_lists_items();
    the_order_puts_dependencies_first();
    let calls = named_by_items(alloc, Wanted::Functions, items, defs)?;
    past_longest(alloc, &calls, order)
}
