// Targets to which each run comes, and whose definitions can't fault.
ghost use Rattle.std.specs.Prelude.{◌≡◌, ◌<◌, ◌+◌, true, length, slice_get};
ghost use Rattle.std.specs.List.{list_all};
ghost use Rattle.cat_dead_report.specs.inside.Forms as forms;
ghost use Rattle.cat_dead_report.specs.inside.Faultless as words;
ghost use Rattle.cat_dead_report.specs.inside.Faultless.{IsFaultless, IsReached};

use crate::deciders::same_inner;
use crate::forms::{Safety, safety_of};
use cat_guard::{GuardDef, TableTarget};
use cat_pos::Shared;
use cat_scope::{Def, Expr, Program};
use cat_value::{ItemDecl, Target};

fn cannot_fault(safety: Safety) -> bool
    ensures { result ≡ forms.cannot_fault safety }
{
    match safety {
        Safety::MayFault => false,
        Safety::CannotFault | Safety::Constant => true,
    }
}

fn condition_cannot_fault(condition: &Option<Shared<Expr>>) -> bool
    ensures { result ≡ words.condition_cannot_fault condition.now }
{
    match condition {
        None => true,
        Some(condition) => cannot_fault(safety_of(condition.get())),
    }
}

fn def_cannot_fault(definition: &Def) -> bool
    ensures { result ≡ words.def_cannot_fault definition.now }
{
    condition_cannot_fault(&definition.condition)
        && cannot_fault(safety_of(definition.consequence.get()))
}

/// Whether a definition is there, and can't fault.
fn is_harmless(definitions: &[Def], number: u32) -> bool
    ensures { result ≡ words.is_harmless (slice_get definitions.now number) }
{
    match definitions.get(number as usize) {
        None => false,
        Some(definition) => def_cannot_fault(definition),
    }
}

/// The same of the definitions that guards are of.
fn are_harmless(definitions: &[Def], guards: &[GuardDef]) -> bool
    ensures { result ≡ list_all (λ d. words.is_harmless (slice_get definitions.now d.number)) guards.now }
{
    guards
        .iter()
        .all(|guard| is_harmless(definitions, guard.number))
}

/// Whether an item is given, or a function, which no run judges where it stands in the order.
fn is_passed(items: &[ItemDecl], number: u32) -> bool
    ensures { result ≡ words.is_passed_if (slice_get items.now number) }
{
    match items.get(number as usize) {
        None => false,
        Some(item) => item.kind.must_be_given() || item.is_function(),
    }
}

/// The same of the item at an index of an order.
fn is_passed_at(items: &[ItemDecl], order: &[u32], index: usize) -> bool
    ensures { result ≡ words.is_passed_at items.now (slice_get order.now index) }
{
    match order.get(index) {
        None => false,
        Some(item) => is_passed(items, *item),
    }
}

/// Whether an item is a variable of the scope that need not be given.
fn is_judged(items: &[ItemDecl], number: u32) -> bool
    ensures { result ≡ words.is_judged (slice_get items.now number) }
{
    match items.get(number as usize) {
        None => false,
        Some(item) => item.is_plain() && !item.kind.must_be_given(),
    }
}

/// Whether a target is the item of that number.
fn is_of(item: Option<u32>, target: Target) -> bool
    ensures { result ≡ words.is_of item target }
{
    match item {
        None => false,
        Some(item) => item == target.item && same_inner(None, target.inner),
    }
}

fn is_harmless_at(
    items: &[ItemDecl],
    order: &[u32],
    definitions: &[Def],
    index: usize,
    target: &TableTarget,
) -> bool
    ensures { result ≡ words.is_harmless_at items.now order.now definitions.now index target.now }
{
    is_of(order.get(index).copied(), target.target)
        && is_judged(items, target.target.item)
        && are_harmless(definitions, target.defs.as_slice())
}

/// The index behind the items from one on that are given, or functions: where each run comes to the one, it comes to
/// the other.
pub(crate) fn past_given(program: &Program, scope: u32, from: usize) -> usize
    requires scopes { scope < length program.now.decls.scopes }
    requires bodies { scope < length program.now.bodies }
    requires reached { IsReached program.now scope from }
    ensures { IsReached program.now scope result }
{
    let items = program.decls().scopes.at(scope as usize).items.as_slice();
    let order = program.order_of(scope);
    let mut index = from;
    while index < order.len() && is_passed_at(items, order, index) {
        index += 1;
    }
    index
}

/// Whether a target stands at an index to which each run comes, and none of its definitions can fault. It costs a step
/// for each part of its definitions.
pub(crate) fn is_faultless(
    program: &Program,
    scope: u32,
    index: usize,
    target: &TableTarget,
) -> bool
    requires scopes { scope < length program.now.decls.scopes }
    requires bodies { scope < length program.now.bodies }
    requires reached { IsReached program.now scope index }
    ensures { result ≡ true → IsFaultless program.now scope index target.now }
{
    let items = program.decls().scopes.at(scope as usize).items.as_slice();
    let order = program.order_of(scope);
    let definitions = program.defs(scope);
    is_harmless_at(items, order, definitions, index, target)
}

/// The index to which each run comes behind a target at one, where that is faultless and each valuation covers it; else
/// the same.
pub(crate) fn past_target(
    program: &Program,
    scope: u32,
    index: usize,
    faultless: bool,
    covered: bool,
) -> usize
    requires bodies { scope < length program.now.bodies }
    requires reached { IsReached program.now scope index }
    requires passed { faultless ≡ true → covered ≡ true → IsReached program.now scope (index + 1) }
    ensures { IsReached program.now scope result }
{
    let last = program.order_of(scope).len();
    if !faultless || !covered || index >= last {
        return index;
    }
    index + 1
}
