// Variables of scopes.
ghost use Rattle.std.specs.Prelude.{◌≡◌, ◌≤◌, length, drop};
ghost use Rattle.cat_parse.specs.Declarations as spec;
ghost use Rattle.cat_parse_expr.specs.Places.{Gives};
ghost use Rattle.cat_parse.specs.Programs as programs;
ghost use Rattle.cat_parse_expr.specs.Reader.{heads};
ghost use Rattle.cat_parse.specs.Many.{many};

use crate::fields::{called, kind, variable_type};
use crate::parts::params;
use cat_lex::{Keyword, Token, TokenKind};
use cat_parse_expr::{Read, is_lower, lower};
use cat_pos::List;
use cat_tree::Variable;
use std::alloc::Global;

/// A variable of the scope, or one for a scope that is called.
pub fn a_variable(alloc: Global, tokens: &[Token], at: usize) -> Read<Variable>
    requires { at ≤ length tokens.now }
    ensures { Gives spec.a_variable tokens.now at result }
{
    if is_lower(tokens, at) {
        let ((name, scope), at) = called(alloc, tokens, at)?;
        return Ok((Variable::Called(name, scope), at));
    }
    let ((kind, pos), at) = kind(tokens, at)?;
    let (name, at) = lower(alloc, tokens, at)?;
    let (ty, at) = variable_type(alloc, tokens, at)?;
    let (params, at) = params(alloc, tokens, at)?;
    Ok((Variable::Own(kind, pos, name, ty, params), at))
}

/// Whether a variable begins at the place.
fn is_variable(tokens: &[Token], at: usize) -> bool
    ensures { result ≡ heads programs.is_variable (drop at tokens.now) }
{
    match tokens.get(at) {
        Some(token) => match &token.kind {
            TokenKind::Lower(_) => true,
            TokenKind::Word(Keyword::Input) => true,
            TokenKind::Word(Keyword::Output) => true,
            TokenKind::Word(Keyword::Internal) => true,
            TokenKind::Word(Keyword::Context) => true,
            _ => false,
        },
        None => false,
    }
}

/// The variables of a scope.
pub fn scope_variables(alloc: Global, tokens: &[Token], at: usize) -> Read<List<Variable>>
    requires { at ≤ length tokens.now }
    ensures { Gives (many programs.is_variable spec.a_variable) tokens.now at result }
{
    let mut variables = List::new(alloc);
    let mut place = at;
    while is_variable(tokens, place) {
        let (variable, next) = a_variable(alloc, tokens, place)?;
        variables.push(variable)?;
        place = next;
    }
    Ok((variables, place))
}
