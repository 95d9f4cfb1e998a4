// The targets of a scope.
ghost use Rattle.std.specs.Prelude.{◌≡◌, ◌<◌, ◌++◌, length, All, IfOk, OnOk, IsTrue};
ghost use Rattle.cat_scope.specs.Names.{scope_items};
ghost use Rattle.cat_scope.specs.Forests.{called_targets, targets_at, targets_of};

use cat_pos::{ENTRIES_BOUND, List};
use cat_value::{Decls, ItemDecl, Kind, Target, declarations_are_sound};
use std::alloc::{AllocError, Global};

pub type Targets = List<Target>;

/// The inputs and contexts of the scope that an item calls.
fn add_called(
    targets: &mut Targets,
    scope: u32,
    item: u32,
    inner: &[ItemDecl],
) -> Result<(), AllocError>
    requires { length inner.now < ENTRIES_BOUND }
    ensures { OnOk result (targets.new ≡ targets.old ++ called_targets scope item 0 inner.now) }
{
    for (number, decl) in inner.iter().enumerate() {
        if !decl.kind.may_be_given() {
            continue;
        }
        targets.push(Target {
            scope,
            item,
            inner: Some(number as u32),
        })?;
    }
    Ok(())
}

/// What an item stands for: itself, where it isn't an input, or the inputs and contexts of the scope that it calls.
fn add_item(
    targets: &mut Targets,
    decls: &Decls,
    scope: u32,
    item: u32,
    kind: Kind,
) -> Result<(), AllocError>
    ensures { OnOk result (targets.new ≡ targets.old ++ targets_at decls.now scope item kind) }
{
    declarations_are_sound(decls);
    match kind {
        Kind::Called(called) => match decls.scopes.get(called as usize) {
            Some(inner) => add_called(targets, scope, item, inner.items.as_slice()),
            None => Ok(()),
        },
        Kind::Input | Kind::InputOutput => Ok(()),
        Kind::Output | Kind::Internal | Kind::Context | Kind::ContextOutput => {
            targets.push(Target {
                scope,
                item,
                inner: None,
            })
        }
    }
}

/// The targets of a scope, in the evaluation order of its items.
pub fn targets_of(
    alloc: Global,
    decls: &Decls,
    scope: u32,
    order: &[u32],
) -> Result<Targets, AllocError>
    requires { scope < length decls.now.scopes }
    ensures { IfOk result (λ targets. targets ≡ targets_of decls.now scope (scope_items decls.now scope) order.now) }
{
    let items = decls.scopes.at(scope as usize).items.as_slice();
    let mut targets = List::new(alloc);
    for &item in order {
        let Some(decl) = items.get(item as usize) else {
            continue;
        };
        add_item(&mut targets, decls, scope, item, decl.kind)?;
    }
    Ok(targets)
}
