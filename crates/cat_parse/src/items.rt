// Declarations and scope blocks.
ghost use Rattle.std.specs.Prelude.{◌≡◌, ◌≤◌, length, drop};
ghost use Rattle.cat_parse.specs.Programs as programs;
ghost use Rattle.cat_parse_expr.specs.Reader.{heads};
ghost use Rattle.cat_parse.specs.Uses as uses;
ghost use Rattle.cat_parse_expr.specs.Places.{Gives};
ghost use Rattle.cat_parse.specs.Expression.{expression};

use crate::blocks::block;
use crate::declaring::declaration;
use crate::laws::expressions_are_read_rightly;
use cat_lex::{Keyword, Token, TokenKind};
use cat_parse_expr::{Cue, Read, is_next};
use cat_pos::List;
use cat_tree::Item;
use std::alloc::Global;

/// A declaration or a scope block.
fn item(alloc: Global, tokens: &[Token], at: usize) -> Read<Item>
    requires { at ≤ length tokens.now }
    ensures { Gives (programs.an_item expression) tokens.now at result }
{
    if is_next(tokens, at, Cue::Word(Keyword::Declaration)) {
        return declaration(alloc, tokens, at);
    }
    let (block, at) = block(alloc, tokens, at)?;
    Ok((Item::Block(block), at))
}

/// Whether a declaration or a scope block begins at the index.
fn is_item(tokens: &[Token], at: usize) -> bool
    ensures { result ≡ heads uses.is_item (drop at tokens.now) }
{
    match tokens.get(at) {
        Some(token) => match &token.kind {
            TokenKind::Word(Keyword::Declaration) => true,
            TokenKind::Word(Keyword::Scope) => true,
            _ => false,
        },
        None => false,
    }
}

/// The declarations and scope blocks of a program.
pub(crate) fn items(alloc: Global, tokens: &[Token], at: usize) -> Read<List<Item>>
    requires { at ≤ length tokens.now }
    ensures { Gives (programs.items expression) tokens.now at result }
{
    expressions_are_read_rightly();
    let mut items = List::new(alloc);
    let mut place = at;
    while is_item(tokens, place) {
        let (found, next) = item(alloc, tokens, place)?;
        items.push(found)?;
        place = next;
    }
    Ok((items, place))
}
