// Whole programs.
ghost use Rattle.std.specs.Prelude.{◌≡◌, ◌≤◌, length, IfOk, IfErr};
ghost use Rattle.cat_tree.specs.Programs.{SpellsLowProgram};
ghost use Rattle.cat_parse.specs.Causes.{HasProgramCause};

use crate::items::items;
use crate::laws::{expressions_are_read_rightly, programs_are_read_exactly};
use cat_lex::Token;
use cat_parse_expr::ParseRefusal;
use cat_tree::Tree;
use std::alloc::Global;

/// The program that the tokens spell. It takes time in proportion to the tokens.
pub fn program(alloc: Global, tokens: &[Token]) -> Result<Tree, ParseRefusal>
    ensures spelled { IfOk result (λ tree. SpellsLowProgram tree tokens.now) }
    ensures cause { IfErr result (HasProgramCause tokens.now) }
{
    expressions_are_read_rightly();
    programs_are_read_exactly();
    let (items, place) = items(alloc, tokens, 0)?;
    if place < tokens.len() {
        return Err(ParseRefusal::Unexpected(place));
    }
    Ok(Tree { items })
}
