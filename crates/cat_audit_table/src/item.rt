// What is told of a target by its item.
ghost use Rattle.std.specs.Prelude.{◌≡◌, IfOk, Some, slice_get, string_bytes};
ghost use Rattle.std.specs.Option.{option_copied};
ghost use Rattle.cat_guard.specs.Tables.{inner_items, inner_item, item_name, item_pos, is_function, may_be_empty};
ghost use Rattle.cat_guard.specs.Tables.{target_name};

use cat_pos::{Pos, Text};
use cat_value::{Decls, ItemDecl, Kind, Target};
use std::alloc::{AllocError, Global};

/// The items of the scope that an item calls.
fn inner_items(decls: &Decls, kind: Kind) -> &[ItemDecl]
    ensures { result.now ≡ inner_items decls.now kind }
{
    match kind {
        Kind::Called(called) => match decls.scopes.get(called as usize) {
            Some(scope) => scope.items.as_slice(),
            None => &[],
        },
        _ => &[],
    }
}

/// The item of that number of the scope that an item calls.
fn inner_item<'a>(decls: &'a Decls, decl: Option<&ItemDecl>, number: u32) -> Option<&'a ItemDecl>
    ensures { option_copied result ≡ inner_item decls.now (option_copied decl.entry) number }
{
    inner_items(decls, decl?.kind).get(number as usize)
}

fn item_name(decl: Option<&ItemDecl>) -> &str
    ensures { result.now ≡ item_name (option_copied decl.entry) }
{
    match decl {
        Some(decl) => decl.name.as_str(),
        None => "",
    }
}

/// The name `t.x` of an item of the scope that an item calls.
fn inner_name(
    alloc: Global,
    decls: &Decls,
    decl: Option<&ItemDecl>,
    number: u32,
) -> Result<String, AllocError>
    ensures { IfOk result (λ name. string_bytes name
        ≡ target_name decls.now (option_copied decl.entry) (Some number)) }
{
    let mut name = String::from_str(alloc, item_name(decl))?;
    name.push_str(".")?;
    name.push_str(item_name(inner_item(decls, decl, number)))?;
    Ok(name)
}

/// The name of a target: `x`, or `t.x`.
pub fn target_name(
    alloc: Global,
    decls: &Decls,
    items: &[ItemDecl],
    target: Target,
) -> Result<Text, AllocError>
    ensures { IfOk result (λ name. name
        ≡ target_name decls.now (slice_get items.now target.item) target.inner) }
{
    let decl = items.get(target.item as usize);
    let Some(number) = target.inner else {
        return Text::from_str(alloc, item_name(decl));
    };
    let name = inner_name(alloc, decls, decl, number)?;
    let name = Text::from_string(alloc, name)?;
    Ok(name)
}

/// Whether a target is a function.
pub fn is_function(items: &[ItemDecl], target: Target) -> bool
    ensures { result ≡ is_function (slice_get items.now target.item) target.inner }
{
    let Some(decl) = items.get(target.item as usize) else {
        return false;
    };
    target.inner.is_none() && !decl.params.is_empty()
}

/// Whether a target may be empty: a condition, or a context of a called scope.
pub fn may_be_empty(decls: &Decls, items: &[ItemDecl], target: Target) -> bool
    ensures { result ≡ may_be_empty decls.now (slice_get items.now target.item) target.inner }
{
    let Some(decl) = items.get(target.item as usize) else {
        return false;
    };
    let Some(number) = target.inner else {
        return decl.condition;
    };
    match inner_items(decls, decl.kind).get(number as usize) {
        Some(inner) => inner.condition || !inner.kind.must_be_given(),
        None => false,
    }
}

/// The position of a target's name in its declaration.
pub fn item_pos(items: &[ItemDecl], target: Target) -> Pos
    ensures { result ≡ item_pos (slice_get items.now target.item) }
{
    match items.get(target.item as usize) {
        Some(decl) => decl.pos,
        None => Pos::new(0, 0, 0),
    }
}
