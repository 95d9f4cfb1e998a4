// The terms of the items of a scope.
ghost use Rattle.std.specs.Prelude.{◌≡◌, ◌<◌, length, IfOk};
ghost use Rattle.cat_pos.specs.declared.limits.TheConstants.{ENTRIES_BOUND};
ghost use Rattle.cat_calc.specs.inside.Items.{term_at, inner_terms, inner_items, terms_of_items};
ghost use Rattle.cat_calc.specs.inside.Tabled.{AreTargetsOf, IsTableOf};

use crate::table::{TargetTable, target_table};
use crate::terms::{one_of, target_term};
use crate::{DefaultTerm, DefaultTerms, ItemTerms, TermsOfItems};
use cat_pos::List;
use cat_scope::{Def, ForestTarget};
use cat_value::{Decls, ItemDecl, Kind, declarations_are_sound};
use std::alloc::{AllocError, Global};

/// The term of an item, or of an inner item of the scope that it calls. One that the forest doesn't list has no
/// definitions.
fn term_at(
    alloc: Global,
    defs: &[Def],
    targets: &[ForestTarget],
    table: &TargetTable,
    item: u32,
    inner: Option<u32>,
) -> Result<DefaultTerm, AllocError>
    requires stand { AreTargetsOf defs.now targets.now }
    requires table { IsTableOf targets.now table.now }
    ensures { IfOk result (λ term. term ≡ term_at defs.now item inner) }
{
    match table.get(&(item, inner)) {
        Some(&index) => target_term(alloc, defs, &targets[index]),
        None => one_of(alloc, List::new(alloc)),
    }
}

/// The terms of the items of the scope that an item calls.
fn inner_terms(
    alloc: Global,
    defs: &[Def],
    targets: &[ForestTarget],
    table: &TargetTable,
    item: u32,
    inner: &[ItemDecl],
) -> Result<DefaultTerms, AllocError>
    requires few { length inner.now < ENTRIES_BOUND }
    requires stand { AreTargetsOf defs.now targets.now }
    requires table { IsTableOf targets.now table.now }
    ensures { IfOk result (λ terms. terms ≡ inner_terms defs.now item 0 inner.now) }
{
    let mut terms = List::new(alloc);
    for (number, _decl) in inner.iter().enumerate() {
        terms.push(term_at(alloc, defs, targets, table, item, Some(number as u32))?)?;
    }
    Ok(terms)
}

/// The items of the scope that an item calls, where it calls one.
fn inner_items(decls: &Decls, kind: Kind) -> &[ItemDecl]
    ensures items { result.now ≡ inner_items decls.now kind }
    ensures few { length result.now < ENTRIES_BOUND }
{
    declarations_are_sound(decls);
    match kind {
        Kind::Called(called) => match decls.scopes.get(called as usize) {
            Some(scope) => scope.items.as_slice(),
            None => &[],
        },
        _ => &[],
    }
}

/// The terms of items, in the order of their declarations.
pub fn terms_of_items(
    alloc: Global,
    decls: &Decls,
    items: &[ItemDecl],
    defs: &[Def],
    targets: &[ForestTarget],
) -> Result<TermsOfItems, AllocError>
    requires few { length items.now < ENTRIES_BOUND }
    requires stand { AreTargetsOf defs.now targets.now }
    ensures { IfOk result (λ terms. terms ≡ terms_of_items decls.now defs.now 0 items.now) }
{
    let table = target_table(alloc, targets)?;
    let mut terms = List::new(alloc);
    for (number, decl) in items.iter().enumerate() {
        let own = term_at(alloc, defs, targets, &table, number as u32, None)?;
        let called = inner_items(decls, decl.kind);
        let inner = inner_terms(alloc, defs, targets, &table, number as u32, called)?;
        terms.push(ItemTerms { own, inner })?;
    }
    Ok(terms)
}
