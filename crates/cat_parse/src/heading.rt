// What stands before a definition's expressions.
ghost use Rattle.std.specs.Prelude.{◌≡◌, ◌≤◌, length};
ghost use Rattle.cat_lex.specs.declared.words.Keyword.TheVariants as key;
ghost use Rattle.cat_parse.specs.Declarations.{is_word};
ghost use Rattle.cat_parse.specs.Leads as spec;
ghost use Rattle.cat_parse_expr.specs.Places.{Gives};
ghost use Rattle.cat_parse.specs.Many.{optional};

use crate::parts::names;
use cat_lex::{Keyword, Symbol, Token};
use cat_parse_expr::{Cue, Read, is_lower, is_next, lower, word};
use cat_tree::{Exception, Lead, Name, SurfaceLabel, TargetName};
use std::alloc::Global;

fn label(alloc: Global, tokens: &[Token], at: usize) -> Read<SurfaceLabel>
    requires { at ≤ length tokens.now }
    ensures { Gives spec.label tokens.now at result }
{
    let (pos, at) = word(tokens, at, Cue::Word(Keyword::Label))?;
    let (name, at) = lower(alloc, tokens, at)?;
    Ok((SurfaceLabel { pos, name }, at))
}

fn label_if(alloc: Global, tokens: &[Token], at: usize) -> Read<Option<SurfaceLabel>>
    requires { at ≤ length tokens.now }
    ensures { Gives (optional (is_word key.Label) spec.label) tokens.now at result }
{
    if is_next(tokens, at, Cue::Word(Keyword::Label)) {
        let (label, at) = label(alloc, tokens, at)?;
        Ok((Some(label), at))
    } else {
        Ok((None, at))
    }
}

fn exception(alloc: Global, tokens: &[Token], at: usize) -> Read<Exception>
    requires { at ≤ length tokens.now }
    ensures { Gives spec.an_exception tokens.now at result }
{
    if !is_next(tokens, at, Cue::Word(Keyword::Exception)) {
        return Ok((Exception::No, at));
    }
    let (pos, at) = word(tokens, at, Cue::Word(Keyword::Exception))?;
    if is_lower(tokens, at) {
        let (name, at) = lower(alloc, tokens, at)?;
        Ok((Exception::Labelled(pos, name), at))
    } else {
        Ok((Exception::OnlyRoot(pos), at))
    }
}

/// What stands before a definition or a rule: a label, and what gives way to it.
pub fn lead(alloc: Global, tokens: &[Token], at: usize) -> Read<Lead>
    requires { at ≤ length tokens.now }
    ensures { Gives spec.lead tokens.now at result }
{
    let (label, at) = label_if(alloc, tokens, at)?;
    let (exception, at) = exception(alloc, tokens, at)?;
    Ok((Lead { label, exception }, at))
}

fn inner(alloc: Global, tokens: &[Token], at: usize) -> Read<Name>
    requires { at ≤ length tokens.now }
    ensures { Gives spec.inner tokens.now at result }
{
    let (_, at) = word(tokens, at, Cue::Sign(Symbol::Dot))?;
    lower(alloc, tokens, at)
}

fn inner_if(alloc: Global, tokens: &[Token], at: usize) -> Read<Option<Name>>
    requires { at ≤ length tokens.now }
    ensures { Gives (optional spec.is_dot spec.inner) tokens.now at result }
{
    if is_next(tokens, at, Cue::Sign(Symbol::Dot)) {
        let (name, at) = inner(alloc, tokens, at)?;
        Ok((Some(name), at))
    } else {
        Ok((None, at))
    }
}

/// What is defined: a variable, or one of a scope that is called, with the names of its parameters.
pub fn target(alloc: Global, tokens: &[Token], at: usize) -> Read<TargetName>
    requires { at ≤ length tokens.now }
    ensures { Gives spec.target tokens.now at result }
{
    let (name, at) = lower(alloc, tokens, at)?;
    let (inner, at) = inner_if(alloc, tokens, at)?;
    let (params, at) = names(alloc, tokens, at)?;
    Ok((
        TargetName {
            name,
            inner,
            params,
        },
        at,
    ))
}
