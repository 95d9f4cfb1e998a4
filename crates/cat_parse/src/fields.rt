// Fields, cases, and the words of variables.
ghost use Rattle.std.specs.Prelude.{◌≡◌, ◌≤◌, length};
ghost use Rattle.cat_parse.specs.Declarations as spec;
ghost use Rattle.cat_parse_expr.specs.Places.{Gives};
ghost use Rattle.cat_parse.specs.Many.{optional};

use cat_lex::{Keyword, Symbol, Token};
use cat_parse_expr::{Cue, Read, a_type, is_next, lower, upper, word};
use cat_pos::Pos;
use cat_tree::{CaseItem, FieldItem, Name, Type, VariableKind};
use std::alloc::Global;

/// A name with its type.
pub fn typed_name(alloc: Global, tokens: &[Token], at: usize) -> Read<FieldItem>
    requires { at ≤ length tokens.now }
    ensures { Gives spec.typed_name tokens.now at result }
{
    let (name, at) = lower(alloc, tokens, at)?;
    let (_, at) = word(tokens, at, Cue::Word(Keyword::Content))?;
    let (ty, at) = a_type(alloc, tokens, at)?;
    Ok((FieldItem { name, ty }, at))
}

/// A field of a structure.
pub fn field(alloc: Global, tokens: &[Token], at: usize) -> Read<FieldItem>
    requires { at ≤ length tokens.now }
    ensures { Gives spec.field tokens.now at result }
{
    let (_, at) = word(tokens, at, Cue::Word(Keyword::Data))?;
    typed_name(alloc, tokens, at)
}

fn content(alloc: Global, tokens: &[Token], at: usize) -> Read<Type>
    requires { at ≤ length tokens.now }
    ensures { Gives spec.content tokens.now at result }
{
    let (_, at) = word(tokens, at, Cue::Word(Keyword::Content))?;
    a_type(alloc, tokens, at)
}

fn content_if(alloc: Global, tokens: &[Token], at: usize) -> Read<Option<Type>>
    requires { at ≤ length tokens.now }
    ensures { Gives (optional spec.is_content spec.content) tokens.now at result }
{
    if is_next(tokens, at, Cue::Word(Keyword::Content)) {
        let (ty, at) = content(alloc, tokens, at)?;
        Ok((Some(ty), at))
    } else {
        Ok((None, at))
    }
}

/// A case of an enumeration.
pub fn a_case(alloc: Global, tokens: &[Token], at: usize) -> Read<CaseItem>
    requires { at ≤ length tokens.now }
    ensures { Gives spec.a_case tokens.now at result }
{
    let (_, at) = word(tokens, at, Cue::Sign(Symbol::MinusMinus))?;
    let (name, at) = upper(alloc, tokens, at)?;
    let (content, at) = content_if(alloc, tokens, at)?;
    Ok((CaseItem { name, content }, at))
}

/// What a variable is: of a type, or a condition.
pub fn variable_type(alloc: Global, tokens: &[Token], at: usize) -> Read<Option<Type>>
    requires { at ≤ length tokens.now }
    ensures { Gives spec.variable_type tokens.now at result }
{
    if is_next(tokens, at, Cue::Word(Keyword::Content)) {
        let (ty, at) = content(alloc, tokens, at)?;
        return Ok((Some(ty), at));
    }
    let (_, at) = word(tokens, at, Cue::Word(Keyword::Condition))?;
    Ok((None, at))
}

/// A variable that calls a scope: its name, and the scope's.
pub fn called(alloc: Global, tokens: &[Token], at: usize) -> Read<(Name, Name)>
    requires { at ≤ length tokens.now }
    ensures { Gives spec.called tokens.now at result }
{
    let (name, at) = lower(alloc, tokens, at)?;
    let (_, at) = word(tokens, at, Cue::Word(Keyword::Scope))?;
    let (scope, at) = upper(alloc, tokens, at)?;
    Ok(((name, scope), at))
}

/// A kind of one word, or of that word and `output`.
fn kind_or(
    tokens: &[Token],
    at: usize,
    first: Keyword,
    alone: VariableKind,
    with_output: VariableKind,
) -> Read<(VariableKind, Pos)>
    requires { at ≤ length tokens.now }
    ensures { Gives (spec.kind_or first alone with_output) tokens.now at result }
{
    let (pos, at) = word(tokens, at, Cue::Word(first))?;
    if is_next(tokens, at, Cue::Word(Keyword::Output)) {
        let (_, at) = word(tokens, at, Cue::Word(Keyword::Output))?;
        return Ok(((with_output, pos), at));
    }
    Ok(((alone, pos), at))
}

/// A kind of one word.
fn kind_of_one(
    tokens: &[Token],
    at: usize,
    first: Keyword,
    alone: VariableKind,
) -> Read<(VariableKind, Pos)>
    requires { at ≤ length tokens.now }
    ensures { Gives (spec.kind_of_one first alone) tokens.now at result }
{
    let (pos, at) = word(tokens, at, Cue::Word(first))?;
    Ok(((alone, pos), at))
}

/// The kind of a variable, with its position.
pub fn kind(tokens: &[Token], at: usize) -> Read<(VariableKind, Pos)>
    requires { at ≤ length tokens.now }
    ensures { Gives spec.a_kind tokens.now at result }
{
    if is_next(tokens, at, Cue::Word(Keyword::Input)) {
        return kind_or(
            tokens,
            at,
            Keyword::Input,
            VariableKind::Input,
            VariableKind::InputOutput,
        );
    }
    if is_next(tokens, at, Cue::Word(Keyword::Output)) {
        return kind_of_one(tokens, at, Keyword::Output, VariableKind::Output);
    }
    if is_next(tokens, at, Cue::Word(Keyword::Internal)) {
        return kind_of_one(tokens, at, Keyword::Internal, VariableKind::Internal);
    }
    kind_or(
        tokens,
        at,
        Keyword::Context,
        VariableKind::Context,
        VariableKind::ContextOutput,
    )
}
