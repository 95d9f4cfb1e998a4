// The words of the command line.
ghost use Rattle.std.specs.Prelude.{◌≡◌, ◌≤◌, ℕ, List, Option, IfOk, IfSome, option_map};
ghost use Rattle.cat_io.specs.Stored.{texts_of};
ghost use Rattle.cat_words.specs.Asked.{asked_of as words_of};
ghost use Rattle.cat_app.specs.Limits.{most_bands};
ghost use Rattle.cat_app.specs.Modes.{mode_by};
ghost use Rattle.cat_app.specs.Words.{OfListing, OfScope, ask_by, bands_by, bands_from, listing_by, request_by};
ghost use Rattle.cat_app.specs.inside.AskedWords.{ask_in, asked_of, listing_asked, AsksFor, HasBands, HasNumber};

use crate::asked_words::AskedWords;
use crate::bands_in;
use cat_words::CommandLine;
use std::alloc::{AllocError, Global};

/// What is done with a scope.
#[derive(Clone, Copy, Debug, PartialEq, Eq)]
pub enum Mode {
    Run,
    Audit,
    Check,
    Emit,
    /// The code is listed as by `Emit`, and run on an input.
    EmitRun,
    Trace,
    Many,
    /// The tables of all targets.
    AllTables,
    /// The table of the target that EXTRA names.
    OneTable,
    /// What runs say of each definition of the scope.
    Dead,
    /// The certificate of dead definitions that EXTRA names is checked.
    DeadCheck,
}

/// A run of listed code that is asked for, with the names of the listing and of the input.
#[derive(Clone, Copy, Debug)]
pub struct ListingWords<'a> {
    pub scope: &'a str,
    pub file: &'a str,
    pub extra: &'a str,
}

/// What words ask for: something of a scope of a source or of listed code, or a drill of so many bands.
#[derive(Clone, Copy, Debug)]
pub enum AskedFor<'a> {
    Scope(AskedWords<'a>),
    Listing(ListingWords<'a>),
    Drill(u32),
}

/// The mode that goes by this name, with or without EXTRA.
fn mode_of(name: &str, has_extra: bool) -> Option<Mode>
    ensures { result ≡ mode_by name.now has_extra }
{
    if name == "run" {
        return Some(Mode::Run);
    }
    if name == "check" {
        return Some(Mode::Check);
    }
    if name == "trace" {
        return Some(Mode::Trace);
    }
    if name == "many" {
        return Some(Mode::Many);
    }
    if name == "audit" && !has_extra {
        return Some(Mode::Audit);
    }
    if name == "emit" {
        return Some(if has_extra { Mode::EmitRun } else { Mode::Emit });
    }
    if name == "table" {
        return Some(if has_extra {
            Mode::OneTable
        } else {
            Mode::AllTables
        });
    }
    if name == "dead" {
        return Some(if has_extra {
            Mode::DeadCheck
        } else {
            Mode::Dead
        });
    }
    None
}

/// What a command line asks for. EXTRA is standard input where a mode reads it and it isn't given.
fn asked_words(line: CommandLine<'_>) -> Option<AskedWords<'_>>
    ensures asked { (cases : Option (List ℕ))
        → option_map (asked_of cases) result ≡ request_by cases (words_of line.entry) }
    ensures cases { IfSome result (λ asked. asked.cases ≡ line.entry.cases) }
{
    if line.file.as_bytes().contains(&10) {
        return None;
    }
    Some(AskedWords {
        mode: mode_of(line.mode, line.extra.is_some())?,
        scope: line.scope,
        file: line.file,
        extra: line.extra.unwrap_or("-"),
        cases: line.cases,
    })
}

/// The run of listed code that a command line asks for. EXTRA is standard input where it isn't given.
fn listing_words(line: CommandLine<'_>) -> Option<ListingWords<'_>>
    ensures { option_map listing_asked result ≡ listing_by (words_of line.entry) }
{
    if line.file.as_bytes().contains(&10) {
        return None;
    }
    Some(ListingWords {
        scope: line.scope,
        file: line.file,
        extra: line.extra.unwrap_or("-"),
    })
}

/// How many bands a drill has.
fn bands_from(
    alloc: Global,
    scope: &str,
    file: &str,
    has_extra: bool,
) -> Result<Option<u32>, AllocError>
    ensures named { IfOk result (λ bands. bands ≡ bands_from scope.now file.now has_extra) }
    ensures range { IfOk result (λ bands. IfSome bands (λ n. (1 ≤ n) × (n ≤ most_bands))) }
{
    if file == "none" && !has_extra {
        return bands_in(alloc, scope);
    }
    Ok(None)
}

/// How many bands a command line names that asks for a drill.
fn asked_bands(alloc: Global, line: CommandLine<'_>) -> Result<Option<u32>, AllocError>
    ensures named { IfOk result (λ bands. bands ≡ bands_by (words_of line.entry)) }
    ensures range { IfOk result (λ bands. IfSome bands (λ n. (1 ≤ n) × (n ≤ most_bands))) }
{
    bands_from(alloc, line.scope, line.file, line.extra.is_some())
}

/// What a command line asks for that asks for a run of listed code.
fn listing_for(line: CommandLine<'_>) -> Option<AskedFor<'_>>
    ensures asked { (cases : Option (List ℕ))
        → option_map (ask_in cases) result ≡ option_map OfListing (listing_by (words_of line.entry)) }
    ensures cases { IfSome result (HasNumber line.entry.cases) }
    ensures bands { IfSome result HasBands }
{
    match listing_words(line) {
        Some(asked) => Some(AskedFor::Listing(asked)),
        None => None,
    }
}

/// What a command line asks for that asks for something of a scope of a source.
fn scope_for(line: CommandLine<'_>) -> Option<AskedFor<'_>>
    ensures asked { (cases : Option (List ℕ))
        → option_map (ask_in cases) result ≡ option_map OfScope (request_by cases (words_of line.entry)) }
    ensures cases { IfSome result (HasNumber line.entry.cases) }
    ensures bands { IfSome result HasBands }
{
    match asked_words(line) {
        Some(asked) => Some(AskedFor::Scope(asked)),
        None => None,
    }
}

/// What a command line asks for by its mode.
fn asked_for(alloc: Global, line: CommandLine<'_>) -> Result<Option<AskedFor<'_>>, AllocError>
    ensures asked { IfOk result (λ asked. (cases : Option (List ℕ))
        → option_map (ask_in cases) asked ≡ ask_by cases (words_of line.entry)) }
    ensures cases { IfOk result (λ asked. IfSome asked (HasNumber line.entry.cases)) }
    ensures bands { IfOk result (λ asked. IfSome asked HasBands) }
{
    if line.mode == "drill" {
        return match asked_bands(alloc, line)? {
            Some(bands) => Ok(Some(AskedFor::Drill(bands))),
            None => Ok(None),
        };
    }
    if line.mode == "exec" {
        return Ok(listing_for(line));
    }
    Ok(scope_for(line))
}

/// What the words `MODE SCOPE FILE [EXTRA] [--cases N]` ask for.
#[tactic(auto, unfolding(crate::specs::Words::ask_of))]
pub fn read_words<'a>(
    alloc: Global,
    words: &'a [String],
) -> Result<Option<AskedFor<'a>>, AllocError>
    ensures { IfOk result (AsksFor (texts_of words.entry.now)) }
{
    match cat_words::read_words(alloc, words)? {
        Some(line) => asked_for(alloc, line),
        None => Ok(None),
    }
}
