// Lines of constants: the longest type, and what stands behind it.
ghost use Rattle.std.specs.Prelude.{◌≡◌, IfOk, IfSome, string_bytes};
ghost use Rattle.std.specs.Option.{option_map};
ghost use Rattle.cat_image.specs.Words.{words};
ghost use Rattle.cat_image.specs.inside.Typed as typed;

use crate::words::{at_blank, element_of, has_bytes};
use crate::{ImageConstant, ImageNames, Row};
use cat_pos::Text;
use std::alloc::{AllocError, Global};

/// A type of so many lists over a name, and the text behind it.
#[derive(Clone, Copy)]
pub(crate) struct Typed<'a> {
    pub lists: usize,
    pub name: &'a str,
    pub value: &'a str,
}

/// A name in front of a blank, and what stands behind it.
fn named(text: &str) -> Option<(&str, &str)>
    ensures { option_map (λ parts. (parts.0.now, parts.1.now)) result ≡ typed.named text.now }
{
    let (name, value) = at_blank(text)?;
    if has_bytes(name) {
        Some((name, value))
    } else {
        None
    }
}

fn longest(text: &str) -> Option<Typed<'_>>
    ensures { option_map typed.typed_words result ≡ typed.typed_of (words text.now) }
{
    let mut rest = text;
    let mut last = text;
    let mut lists = 0;
    while let Some(element) = element_of(rest) {
        last = rest;
        rest = element;
        lists += 1;
    }
    if let Some((name, value)) = named(rest) {
        return Some(Typed { lists, name, value });
    }
    if lists == 0 {
        return None;
    }
    // the last `list` is a name
    let (name, value) = at_blank(last)?;
    let lists = lists - 1;
    Some(Typed { lists, name, value })
}

/// So many times `list of`, and a name.
fn listed(alloc: Global, lists: usize, name: &str) -> Result<Text, AllocError>
    ensures { IfOk result (λ text. text ≡ typed.listed lists name.now) }
{
    let mut text = String::new(alloc);
    for _ in 0..lists {
        text.push_str("list of ")?;
    }
    text.push_str(name)?;
    Text::from_string(alloc, text)
}

/// How many types are kept.
const MOST_KEPT: usize = 8;

/// The type that is kept with these bytes.
fn kept<'a>(types: &'a ImageNames, ty: &str) -> Option<&'a Text>
    ensures { IfSome result (λ found. found.now ≡ ty.now) }
{
    for found in types.as_slice() {
        if found.is(ty) {
            return Some(found);
        }
    }
    None
}

/// A type of one word, which shares its bytes with the one that is kept: most constants have one of a few types.
fn shared(alloc: Global, types: &mut ImageNames, ty: &str) -> Result<Text, AllocError>
    ensures { IfOk result (λ text. text ≡ ty.now) }
{
    if let Some(found) = kept(types, ty) {
        return found.copy();
    }
    let text = Text::from_str(alloc, ty)?;
    if types.len() < MOST_KEPT {
        types.push(text.copy()?)?;
    }
    Ok(text)
}

/// The text of a type.
fn type_text(
    alloc: Global,
    types: &mut ImageNames,
    lists: usize,
    name: &str,
) -> Result<Text, AllocError>
    ensures { IfOk result (λ text. text ≡ typed.listed lists name.now) }
{
    if lists > 0 {
        return listed(alloc, lists, name);
    }
    shared(alloc, types, name)
}

#[tactic(auto, unfolding(crate::specs::inside::Typed::constant_of))]
pub(crate) fn constant(
    alloc: Global,
    types: &mut ImageNames,
    text: &str,
) -> Result<Option<Row>, AllocError>
    ensures { IfOk result (λ row. row ≡ typed.constant_of text.now) }
{
    let Some(Typed { lists, name, value }) = longest(text) else {
        return Ok(None);
    };
    let ty = type_text(alloc, types, lists, name)?;
    let value = Text::from_str(alloc, value)?;
    Ok(Some(Row::Constant(ImageConstant { ty, value })))
}
