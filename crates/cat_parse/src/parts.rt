// Lists of fields, cases, variables, parameters, and names of parameters.
ghost use Rattle.std.specs.Prelude.{◌≡◌, ◌≤◌, length, drop};
ghost use Rattle.cat_lex.specs.declared.words.Keyword.TheVariants as key;
ghost use Rattle.cat_parse_expr.specs.Cues as cues;
ghost use Rattle.cat_parse.specs.Declarations as spec;
ghost use Rattle.cat_parse.specs.Leads as leads;
ghost use Rattle.cat_parse.specs.Programs as programs;
ghost use Rattle.cat_parse_expr.specs.Places.{Gives};
ghost use Rattle.cat_parse_expr.specs.Reader.{heads};
ghost use Rattle.cat_parse.specs.Many.{many, some};

use crate::fields::{a_case, field, typed_name};
use cat_lex::{DoubleKeyword, Keyword, Symbol, Token, TokenKind};
use cat_parse_expr::{Cue, Read, is_next, lower, word};
use cat_pos::List;
use cat_tree::{CaseItem, FieldItem, FieldItems, Name, Names, Variable};
use std::alloc::Global;

/// The fields of a structure, of which there is one at least.
pub fn structure_fields(alloc: Global, tokens: &[Token], at: usize) -> Read<FieldItems>
    requires { at ≤ length tokens.now }
    ensures { Gives (some (spec.is_word key.Data) spec.field) tokens.now at result }
{
    let (first, behind) = field(alloc, tokens, at)?;
    let mut fields = List::new(alloc);
    fields.push(first)?;
    let mut place = behind;
    while is_next(tokens, place, Cue::Word(Keyword::Data)) {
        let (item, next) = field(alloc, tokens, place)?;
        fields.push(item)?;
        place = next;
    }
    Ok((fields, place))
}

/// The cases of an enumeration, of which there is one at least.
pub fn enumeration_cases(alloc: Global, tokens: &[Token], at: usize) -> Read<List<CaseItem>>
    requires { at ≤ length tokens.now }
    ensures { Gives (some programs.is_dashes spec.a_case) tokens.now at result }
{
    let (first, behind) = a_case(alloc, tokens, at)?;
    let mut cases = List::new(alloc);
    cases.push(first)?;
    let mut place = behind;
    while is_next(tokens, place, Cue::Sign(Symbol::MinusMinus)) {
        let (item, next) = a_case(alloc, tokens, place)?;
        cases.push(item)?;
        place = next;
    }
    Ok((cases, place))
}

/// A parameter behind another one.
fn next_param(alloc: Global, tokens: &[Token], at: usize) -> Read<FieldItem>
    requires { at ≤ length tokens.now }
    ensures { Gives (spec.comma spec.typed_name) tokens.now at result }
{
    let (_, at) = word(tokens, at, Cue::Sign(Symbol::Comma))?;
    typed_name(alloc, tokens, at)
}

fn listed_params(alloc: Global, tokens: &[Token], at: usize) -> Read<FieldItems>
    requires { at ≤ length tokens.now }
    ensures { Gives (spec.listed spec.typed_name) tokens.now at result }
{
    let (first, behind) = typed_name(alloc, tokens, at)?;
    let mut params = List::new(alloc);
    params.push(first)?;
    let mut place = behind;
    while is_next(tokens, place, Cue::Sign(Symbol::Comma)) {
        let (item, next) = next_param(alloc, tokens, place)?;
        params.push(item)?;
        place = next;
    }
    Ok((params, place))
}

/// The parameters of a variable, where it has some.
pub fn params(alloc: Global, tokens: &[Token], at: usize) -> Read<FieldItems>
    requires { at ≤ length tokens.now }
    ensures { Gives spec.params tokens.now at result }
{
    if !is_next(tokens, at, Cue::Pair(DoubleKeyword::DependsOn)) {
        return Ok((List::new(alloc), at));
    }
    let (_, at) = word(tokens, at, Cue::Pair(DoubleKeyword::DependsOn))?;
    listed_params(alloc, tokens, at)
}

/// The name of a parameter behind another one.
fn next_name(alloc: Global, tokens: &[Token], at: usize) -> Read<Name>
    requires { at ≤ length tokens.now }
    ensures { Gives (spec.comma cues.lower) tokens.now at result }
{
    let (_, at) = word(tokens, at, Cue::Sign(Symbol::Comma))?;
    lower(alloc, tokens, at)
}

fn listed_names(alloc: Global, tokens: &[Token], at: usize) -> Read<Names>
    requires { at ≤ length tokens.now }
    ensures { Gives (spec.listed cues.lower) tokens.now at result }
{
    let (first, behind) = lower(alloc, tokens, at)?;
    let mut names = List::new(alloc);
    names.push(first)?;
    let mut place = behind;
    while is_next(tokens, place, Cue::Sign(Symbol::Comma)) {
        let (item, next) = next_name(alloc, tokens, place)?;
        names.push(item)?;
        place = next;
    }
    Ok((names, place))
}

/// The names of parameters, where there are some.
pub fn names(alloc: Global, tokens: &[Token], at: usize) -> Read<Names>
    requires { at ≤ length tokens.now }
    ensures { Gives leads.names tokens.now at result }
{
    if !is_next(tokens, at, Cue::Word(Keyword::Of)) {
        return Ok((List::new(alloc), at));
    }
    let (_, at) = word(tokens, at, Cue::Word(Keyword::Of))?;
    listed_names(alloc, tokens, at)
}
