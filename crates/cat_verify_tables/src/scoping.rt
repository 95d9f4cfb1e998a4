// Scopes with their items.
ghost use Rattle.std.specs.Prelude.{◌≡◌, [], false, IfOk, IfErr, MatchOption};
ghost use Rattle.cat_scope.specs.Names.{is_called};
ghost use Rattle.cat_image.specs.declared.tables.ImageKind.TheVariants as words;
ghost use Rattle.cat_image.specs.Listed.{kind_words};
ghost use Rattle.cat_verify_tables.specs.inside.Causes.{AtLine, Refuses, IsFaultyIn};
ghost use Rattle.cat_verify_tables.specs.inside.Entries.{AreTold};
ghost use Rattle.cat_verify_tables.specs.inside.NamedWords.{item_count};
ghost use Rattle.cat_verify_tables.specs.inside.HeldWords.{ArePlain};
ghost use Rattle.cat_verify_tables.specs.inside.ItemWords.{IsHeldOf, HoldsNothing, IsDeclOf, IsWrongDecl};
ghost use Rattle.cat_verify_tables.specs.inside.ItemWords.{AreItemsOf, HasWrongItem, IsScopeOf, IsWrongScope};

use crate::TableRefusal;
use crate::holding::{Held, what_is_held};
use crate::lines::{needed, position};
use crate::named::add_part_name;
use crate::numbers::{behind, past};
use crate::types::TypeNames;
use cat_check_names::NameTable;
use cat_image::{ImageItem, ImageKind, ImageScope};
use cat_names::MOST_ITEMS;
use cat_pos::List;
use cat_value::{ItemDecl, ItemDecls, Kind, Scope, Scopes, Ty, Tys};
use std::alloc::Global;

/// What items name: types, scopes, and files, of which there are so many.
#[derive(Drop)]
pub(crate) struct Known {
    pub types: TypeNames,
    pub scopes: NameTable,
    pub files: usize,
}

/// The kind of a variable; none of a called scope.
fn variable_kind(kind: ImageKind) -> Option<Kind>
    ensures { MatchOption result (kind ≡ words.Called) (λ k. is_called k ≡ false × kind_words k ≡ kind) }
{
    match kind {
        ImageKind::Input => Some(Kind::Input),
        ImageKind::Output => Some(Kind::Output),
        ImageKind::Internal => Some(Kind::Internal),
        ImageKind::Context => Some(Kind::Context),
        ImageKind::InputOutput => Some(Kind::InputOutput),
        ImageKind::ContextOutput => Some(Kind::ContextOutput),
        ImageKind::Called => None,
    }
}

/// A variable with what it holds.
fn variable(
    alloc: Global,
    known: &Known,
    line: &ImageItem,
    kind: Kind,
    number: usize,
) -> Result<ItemDecl, TableRefusal>
    requires plain { ArePlain known.now.types }
    requires variable { is_called kind ≡ false }
    requires kind { kind_words kind ≡ line.now.kind }
    ensures told { IfOk result (IsDeclOf known.now line.now) }
    ensures cause { IfErr result (AtLine number (IsWrongDecl known.now line.now)) }
{
    let pos = position(known.files, line.pos, number)?;
    let name = line.name.copy()?;
    let Held {
        ty,
        condition,
        params,
    } = what_is_held(alloc, &known.types, line.what.as_str(), number)?;
    Ok(ItemDecl {
        name,
        pos,
        kind,
        ty,
        condition,
        params,
    })
}

/// A called scope.
fn called(
    alloc: Global,
    known: &Known,
    line: &ImageItem,
    number: usize,
) -> Result<ItemDecl, TableRefusal>
    requires { line.now.kind ≡ words.Called }
    ensures told { IfOk result (IsDeclOf known.now line.now) }
    ensures cause { IfErr result (AtLine number (IsWrongDecl known.now line.now)) }
{
    let pos = position(known.files, line.pos, number)?;
    let Some(scope) = known.scopes.number(&line.what) else {
        return Err(TableRefusal::BadTable(number));
    };
    let name = line.name.copy()?;
    Ok(ItemDecl {
        name,
        pos,
        kind: Kind::Called(scope),
        ty: Ty::Boolean,
        condition: false,
        params: Tys::new(alloc),
    })
}

/// An item, whatever its name.
fn item(
    alloc: Global,
    known: &Known,
    line: &ImageItem,
    number: usize,
) -> Result<ItemDecl, TableRefusal>
    requires { ArePlain known.now.types }
    ensures told { IfOk result (IsDeclOf known.now line.now) }
    ensures cause { IfErr result (AtLine number (IsWrongDecl known.now line.now)) }
{
    match variable_kind(line.kind) {
        Some(kind) => variable(alloc, known, line, kind, number),
        None => called(alloc, known, line, number),
    }
}

/// Items, the first of which has that line.
fn items(
    alloc: Global,
    known: &Known,
    lines: &[ImageItem],
    first: usize,
) -> Result<ItemDecls, TableRefusal>
    requires { ArePlain known.now.types }
    ensures told { IfOk result (AreItemsOf known.now lines.now) }
    ensures cause { IfErr result (Refuses (HasWrongItem known.now lines.now first)) }
{
    let mut names = NameTable::new(alloc);
    let mut items = ItemDecls::new(alloc);
    for (at, line) in lines.iter().enumerate() {
        let number = behind(first, at)?;
        needed(at < MOST_ITEMS, number)?;
        add_part_name(alloc, &mut names, &line.name, number)?;
        let made = item(alloc, known, line, number)?;
        items.push(made)?;
    }
    Ok(items)
}

fn scope(
    alloc: Global,
    known: &Known,
    line: &ImageScope,
    number: usize,
) -> Result<Scope, TableRefusal>
    requires { ArePlain known.now.types }
    ensures told { IfOk result (IsScopeOf known.now line.now) }
    ensures cause { IfErr result (Refuses (IsWrongScope known.now line.now number)) }
{
    let first = behind(number, 1)?;
    let items = items(alloc, known, line.items.as_slice(), first)?;
    let name = line.name.copy()?;
    Ok(Scope { name, items })
}

/// Scopes, the first of which has that line.
pub(crate) fn scopes(
    alloc: Global,
    known: &Known,
    lines: &[ImageScope],
    first: usize,
) -> Result<Scopes, TableRefusal>
    requires { ArePlain known.now.types }
    ensures told { IfOk result (AreTold (λ _. IsScopeOf known.now) [] lines.now) }
    ensures cause { IfErr result (Refuses (IsFaultyIn item_count (λ _. IsWrongScope known.now) first lines.now)) }
{
    let mut scopes = List::new(alloc);
    let mut number = first;
    for line in lines {
        let made = scope(alloc, known, line, number)?;
        scopes.push(made)?;
        number = past(number, line.items.len())?;
    }
    Ok(scopes)
}
