// One word of a list of tokens.
ghost use Rattle.std.specs.Prelude.{◌≡◌, ◌<◌, ◌≤◌, ℕ, length, drop, IfOk};
ghost use Rattle.cat_parse_expr.specs.Cues as cues;
ghost use Rattle.cat_parse_expr.specs.Parts as parts;
ghost use Rattle.cat_parse_expr.specs.Reader.{heads, heads_second, with_room};
ghost use Rattle.cat_parse_expr.specs.Places.{Gives};

use crate::cue::{Cue, cue_is};
use crate::miss::{Read, broken_at, too_high};
use cat_lex::{Token, TokenKind};
use cat_pos::Pos;
use cat_tree::Name;
use std::alloc::Global;

/// The word at the place, with its position, and the place after it.
pub fn word(tokens: &[Token], at: usize, cue: Cue) -> Read<Pos>
    requires { at ≤ length tokens.now }
    ensures gives { Gives (cues.«word» cue) tokens.now at result }
    ensures further { IfOk result (λ read. at < read.1) }
{
    match tokens.get(at) {
        Some(token) => {
            if cue_is(cue, &token.kind) {
                Ok((token.pos, at + 1))
            } else {
                Err(broken_at(at))
            }
        }
        None => Err(broken_at(at)),
    }
}

/// The name at the place, and the place after it.
pub fn lower(alloc: Global, tokens: &[Token], at: usize) -> Read<Name>
    requires { at ≤ length tokens.now }
    ensures gives { Gives cues.lower tokens.now at result }
    ensures further { IfOk result (λ read. at < read.1) }
{
    match tokens.get(at) {
        Some(token) => match &token.kind {
            TokenKind::Lower(text) => {
                let text = text.copy()?;
                Ok((
                    Name {
                        text,
                        pos: token.pos,
                    },
                    at + 1,
                ))
            }
            _ => Err(broken_at(at)),
        },
        None => Err(broken_at(at)),
    }
}

/// The word of a type, a case or a scope at the place, and the place after it.
pub fn upper(alloc: Global, tokens: &[Token], at: usize) -> Read<Name>
    requires { at ≤ length tokens.now }
    ensures gives { Gives cues.upper tokens.now at result }
    ensures further { IfOk result (λ read. at < read.1) }
{
    match tokens.get(at) {
        Some(token) => match &token.kind {
            TokenKind::Upper(text) => {
                let text = text.copy()?;
                Ok((
                    Name {
                        text,
                        pos: token.pos,
                    },
                    at + 1,
                ))
            }
            _ => Err(broken_at(at)),
        },
        None => Err(broken_at(at)),
    }
}

/// Whether the word stands at the place.
pub fn is_next(tokens: &[Token], at: usize, cue: Cue) -> bool
    ensures { result ≡ heads (cues.cue_is cue) (drop at tokens.now) }
{
    match tokens.get(at) {
        Some(token) => cue_is(cue, &token.kind),
        None => false,
    }
}

/// Whether a name stands at the place.
pub fn is_lower(tokens: &[Token], at: usize) -> bool
    ensures { result ≡ heads parts.is_lower (drop at tokens.now) }
{
    match tokens.get(at) {
        Some(token) => match &token.kind {
            TokenKind::Lower(_) => true,
            _ => false,
        },
        None => false,
    }
}

/// Whether the word stands behind the next one.
pub(crate) fn is_second(tokens: &[Token], at: usize, cue: Cue) -> bool
    ensures { result ≡ heads_second (cues.cue_is cue) (drop at tokens.now) }
{
    if at < tokens.len() {
        return is_next(tokens, at + 1, cue);
    }
    false
}

/// Whether a name stands behind the next word.
pub(crate) fn is_second_lower(tokens: &[Token], at: usize) -> bool
    ensures { result ≡ heads_second parts.is_lower (drop at tokens.now) }
{
    if at < tokens.len() {
        return is_lower(tokens, at + 1);
    }
    false
}

/// The position of the next word, and the place after it.
pub(crate) fn any_pos(tokens: &[Token], at: usize) -> Read<Pos>
    requires { at ≤ length tokens.now }
    ensures gives { Gives cues.any_pos tokens.now at result }
    ensures further { IfOk result (λ read. at < read.1) }
{
    match tokens.get(at) {
        Some(token) => Ok((token.pos, at + 1)),
        None => Err(broken_at(at)),
    }
}

/// The word, where there is room for a part behind it.
pub(crate) fn word_with_room(tokens: &[Token], at: usize, cue: Cue, room: u16) -> Read<Pos>
    requires { at ≤ length tokens.now }
    ensures gives { Gives (with_room room (cues.«word» cue)) tokens.now at result }
    ensures further { IfOk result (λ read. at < read.1) }
    ensures roomy { IfOk result (λ read. 0 < room) }
{
    let found = word(tokens, at, cue)?;
    if room == 0 {
        return Err(too_high(at));
    }
    Ok(found)
}

/// The name, where there is room for it.
pub(crate) fn lower_with_room(alloc: Global, tokens: &[Token], at: usize, room: u16) -> Read<Name>
    requires { at ≤ length tokens.now }
    ensures gives { Gives (with_room room cues.lower) tokens.now at result }
    ensures further { IfOk result (λ read. at < read.1) }
    ensures roomy { IfOk result (λ read. 0 < room) }
{
    let found = lower(alloc, tokens, at)?;
    if room == 0 {
        return Err(too_high(at));
    }
    Ok(found)
}

/// The word of a case, where there is room for it.
pub(crate) fn upper_with_room(alloc: Global, tokens: &[Token], at: usize, room: u16) -> Read<Name>
    requires { at ≤ length tokens.now }
    ensures gives { Gives (with_room room cues.upper) tokens.now at result }
    ensures further { IfOk result (λ read. at < read.1) }
    ensures roomy { IfOk result (λ read. 0 < room) }
{
    let found = upper(alloc, tokens, at)?;
    if room == 0 {
        return Err(too_high(at));
    }
    Ok(found)
}
