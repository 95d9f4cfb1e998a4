// What a line says.
ghost use Rattle.std.specs.Prelude.{◌≡◌, IfOk};
ghost use Rattle.cat_image.specs.Rows.{is_what_for};
ghost use Rattle.cat_image.specs.inside.ReadRows as rows;

use crate::instrs::instr;
use crate::names::{RowKind, item_kind, row_kind};
use crate::typed::constant;
use crate::words::{at_blank, is_name, is_type, is_what, number, pos};
use crate::{ImageCase, ImageField, ImageItem, ImageKind, ImageNames, ImageTarget, Row};
use cat_pos::Text;
use std::alloc::{AllocError, Global};

fn structure(alloc: Global, name: &str) -> Result<Option<Row>, AllocError>
    ensures { IfOk result (λ row. row ≡ rows.structure_of name.now) }
{
    if !is_name(name) {
        return Ok(None);
    }
    Ok(Some(Row::Structure(Text::from_str(alloc, name)?)))
}

#[tactic(auto, unfolding(crate::specs::inside::ReadRows::field_of))]
fn field(alloc: Global, text: &str) -> Result<Option<Row>, AllocError>
    ensures { IfOk result (λ row. row ≡ rows.field_of text.now) }
{
    let Some((name, ty)) = at_blank(text) else {
        return Ok(None);
    };
    if !is_name(name) {
        return Ok(None);
    }
    if !is_type(ty) {
        return Ok(None);
    }
    let name = Text::from_str(alloc, name)?;
    let ty = Text::from_str(alloc, ty)?;
    Ok(Some(Row::Field(ImageField { name, ty })))
}

fn enumeration(alloc: Global, name: &str) -> Result<Option<Row>, AllocError>
    ensures { IfOk result (λ row. row ≡ rows.enumeration_of name.now) }
{
    if !is_name(name) {
        return Ok(None);
    }
    Ok(Some(Row::Enumeration(Text::from_str(alloc, name)?)))
}

/// A case without content.
fn bare_case(alloc: Global, name: &str) -> Result<Option<Row>, AllocError>
    ensures { IfOk result (λ row. row ≡ rows.bare_case_of name.now) }
{
    if !is_name(name) {
        return Ok(None);
    }
    let name = Text::from_str(alloc, name)?;
    let content = None;
    Ok(Some(Row::Case(ImageCase { name, content })))
}

#[tactic(auto, unfolding(crate::specs::inside::ReadRows::case_of))]
fn case(alloc: Global, text: &str) -> Result<Option<Row>, AllocError>
    ensures { IfOk result (λ row. row ≡ rows.case_of text.now) }
{
    let Some((name, ty)) = at_blank(text) else {
        return bare_case(alloc, text);
    };
    if !is_name(name) {
        return Ok(None);
    }
    if !is_type(ty) {
        return Ok(None);
    }
    let name = Text::from_str(alloc, name)?;
    let content = Some(Text::from_str(alloc, ty)?);
    Ok(Some(Row::Case(ImageCase { name, content })))
}

#[tactic(auto, unfolding(crate::specs::inside::ReadRows::scope_of))]
fn scope(alloc: Global, text: &str) -> Result<Option<Row>, AllocError>
    ensures { IfOk result (λ row. row ≡ rows.scope_of text.now) }
{
    let Some((name, entry)) = at_blank(text) else {
        return Ok(None);
    };
    if !is_name(name) {
        return Ok(None);
    }
    let Some(entry) = number(entry) else {
        return Ok(None);
    };
    Ok(Some(Row::Scope(Text::from_str(alloc, name)?, entry)))
}

fn is_what_for(kind: ImageKind, what: &str) -> bool
    ensures { result ≡ is_what_for kind what.now }
{
    match kind {
        ImageKind::Called => is_name(what),
        ImageKind::Input => is_what(what),
        ImageKind::Output => is_what(what),
        ImageKind::Internal => is_what(what),
        ImageKind::Context => is_what(what),
        ImageKind::InputOutput => is_what(what),
        ImageKind::ContextOutput => is_what(what),
    }
}

/// An item behind its name and its kind.
#[tactic(auto, unfolding(crate::specs::inside::ReadRows::item_of))]
fn item_of(
    alloc: Global,
    name: &str,
    kind: ImageKind,
    text: &str,
) -> Result<Option<Row>, AllocError>
    ensures { IfOk result (λ row. row ≡ rows.item_of name.now kind text.now) }
{
    let Some((place, what)) = at_blank(text) else {
        return Ok(None);
    };
    let Some(pos) = pos(place) else {
        return Ok(None);
    };
    if !is_what_for(kind, what) {
        return Ok(None);
    }
    let name = Text::from_str(alloc, name)?;
    let what = Text::from_str(alloc, what)?;
    Ok(Some(Row::Item(ImageItem {
        name,
        kind,
        pos,
        what,
    })))
}

/// An item behind its name.
#[tactic(auto, unfolding(crate::specs::inside::ReadRows::item_named))]
fn item_named(alloc: Global, name: &str, text: &str) -> Result<Option<Row>, AllocError>
    ensures { IfOk result (λ row. row ≡ rows.item_named name.now text.now) }
{
    let Some((word, rest)) = at_blank(text) else {
        return Ok(None);
    };
    let Some(kind) = item_kind(word) else {
        return Ok(None);
    };
    item_of(alloc, name, kind, rest)
}

#[tactic(auto, unfolding(crate::specs::inside::ReadRows::item))]
fn item(alloc: Global, text: &str) -> Result<Option<Row>, AllocError>
    ensures { IfOk result (λ row. row ≡ rows.item text.now) }
{
    let Some((name, rest)) = at_blank(text) else {
        return Ok(None);
    };
    if !is_name(name) {
        return Ok(None);
    }
    item_named(alloc, name, rest)
}

#[tactic(auto, unfolding(crate::specs::inside::ReadRows::target_of))]
fn target(alloc: Global, text: &str) -> Result<Option<Row>, AllocError>
    ensures { IfOk result (λ row. row ≡ rows.target_of text.now) }
{
    let Some((place, rest)) = at_blank(text) else {
        return Ok(None);
    };
    if !is_name(place) {
        return Ok(None);
    }
    let Some(pos) = pos(rest) else {
        return Ok(None);
    };
    let place = Text::from_str(alloc, place)?;
    Ok(Some(Row::Target(ImageTarget { place, pos })))
}

fn definition(text: &str) -> Option<Row>
    ensures { result ≡ rows.definition_of text.now }
{
    match pos(text) {
        Some(pos) => Some(Row::Definition(pos)),
        None => None,
    }
}

fn function(text: &str) -> Option<Row>
    ensures { result ≡ rows.function_of text.now }
{
    match number(text) {
        Some(entry) => Some(Row::Function(entry)),
        None => None,
    }
}

fn position(text: &str) -> Option<Row>
    ensures { result ≡ rows.position_of text.now }
{
    match pos(text) {
        Some(pos) => Some(Row::Position(pos)),
        None => None,
    }
}

/// An instruction behind its number.
#[tactic(auto, unfolding(crate::specs::inside::ReadRows::instruction_of))]
fn instruction(first: &str, text: &str) -> Option<Row>
    ensures { result ≡ rows.instruction_of first.now text.now }
{
    let place = number(first)?;
    let instr = instr(text)?;
    Some(Row::Instruction(place, instr))
}

/// A line in front of the instructions, behind its first word.
fn row_of(
    alloc: Global,
    types: &mut ImageNames,
    kind: RowKind,
    rest: &str,
) -> Result<Option<Row>, AllocError>
    ensures { IfOk result (λ row. row ≡ rows.row_of kind rest.now) }
{
    match kind {
        RowKind::File => Ok(Some(Row::File(Text::from_str(alloc, rest)?))),
        RowKind::Structure => structure(alloc, rest),
        RowKind::Field => field(alloc, rest),
        RowKind::Enumeration => enumeration(alloc, rest),
        RowKind::Case => case(alloc, rest),
        RowKind::Scope => scope(alloc, rest),
        RowKind::Item => item(alloc, rest),
        RowKind::Target => target(alloc, rest),
        RowKind::Definition => Ok(definition(rest)),
        RowKind::Function => Ok(function(rest)),
        RowKind::Position => Ok(position(rest)),
        RowKind::Constant => constant(alloc, types, rest),
    }
}

/// What a line behind the first one says, where it is of some form. Types of constants are kept, to be shared.
#[tactic(auto, unfolding(crate::specs::inside::ReadRows::row_read))]
pub(crate) fn row_read(
    alloc: Global,
    types: &mut ImageNames,
    line: &str,
) -> Result<Option<Row>, AllocError>
    ensures { IfOk result (λ row. row ≡ rows.row_read line.now) }
{
    let Some((word, rest)) = at_blank(line) else {
        return Ok(None);
    };
    match row_kind(word) {
        Some(kind) => row_of(alloc, types, kind, rest),
        None => Ok(instruction(word, rest)),
    }
}
