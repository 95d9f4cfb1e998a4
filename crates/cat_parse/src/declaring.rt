// Declarations.
ghost use Rattle.std.specs.Prelude.{◌≡◌, ◌≤◌, length, drop};
ghost use Rattle.cat_lex.specs.declared.words.Keyword.TheVariants as key;
ghost use Rattle.cat_parse.specs.Declarations as parts;
ghost use Rattle.cat_parse_expr.specs.Places.{Gives};
ghost use Rattle.cat_parse.specs.Programs as spec;
ghost use Rattle.cat_parse_expr.specs.Reader.{◌⨟◌, pure};
ghost use Rattle.cat_parse.specs.Many.{many, some};

use crate::parts::{enumeration_cases, structure_fields};
use crate::scopes::scope_variables;
use cat_lex::{Keyword, Symbol, Token};
use cat_parse_expr::{Cue, Read, is_next, upper, word};
use cat_pos::List;
use cat_tree::{CaseItem, FieldItems, Item, Name, Variable};
use std::alloc::Global;

fn structure(alloc: Global, tokens: &[Token], at: usize) -> Read<(Name, FieldItems)>
    requires { at ≤ length tokens.now }
    ensures { Gives (spec.named key.Structure (some (parts.is_word key.Data) parts.field)) tokens.now at result }
{
    let (_, at) = word(tokens, at, Cue::Word(Keyword::Structure))?;
    let (name, at) = upper(alloc, tokens, at)?;
    let (_, at) = word(tokens, at, Cue::Sign(Symbol::Colon))?;
    let (fields, at) = structure_fields(alloc, tokens, at)?;
    Ok(((name, fields), at))
}

fn enumeration(alloc: Global, tokens: &[Token], at: usize) -> Read<(Name, List<CaseItem>)>
    requires { at ≤ length tokens.now }
    ensures { Gives (spec.named key.Enumeration (some spec.is_dashes parts.a_case)) tokens.now at result }
{
    let (_, at) = word(tokens, at, Cue::Word(Keyword::Enumeration))?;
    let (name, at) = upper(alloc, tokens, at)?;
    let (_, at) = word(tokens, at, Cue::Sign(Symbol::Colon))?;
    let (cases, at) = enumeration_cases(alloc, tokens, at)?;
    Ok(((name, cases), at))
}

fn scope(alloc: Global, tokens: &[Token], at: usize) -> Read<(Name, List<Variable>)>
    requires { at ≤ length tokens.now }
    ensures { Gives (spec.named key.Scope (many spec.is_variable parts.a_variable)) tokens.now at result }
{
    let (_, at) = word(tokens, at, Cue::Word(Keyword::Scope))?;
    let (name, at) = upper(alloc, tokens, at)?;
    let (_, at) = word(tokens, at, Cue::Sign(Symbol::Colon))?;
    let (variables, at) = scope_variables(alloc, tokens, at)?;
    Ok(((name, variables), at))
}

/// A declaration of a structure, an enumeration or a scope.
pub fn declaration(alloc: Global, tokens: &[Token], at: usize) -> Read<Item>
    requires { at ≤ length tokens.now }
    ensures { Gives (spec.declaration ⨟ λ x. pure (spec.item_of x)) tokens.now at result }
{
    let (pos, at) = word(tokens, at, Cue::Word(Keyword::Declaration))?;
    if is_next(tokens, at, Cue::Word(Keyword::Structure)) {
        let ((name, fields), at) = structure(alloc, tokens, at)?;
        return Ok((Item::Structure(pos, name, fields), at));
    }
    if is_next(tokens, at, Cue::Word(Keyword::Enumeration)) {
        let ((name, cases), at) = enumeration(alloc, tokens, at)?;
        return Ok((Item::Enumeration(pos, name, cases), at));
    }
    let ((name, variables), at) = scope(alloc, tokens, at)?;
    Ok((Item::Scope(pos, name, variables), at))
}
