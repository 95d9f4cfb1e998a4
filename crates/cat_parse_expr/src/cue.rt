// Words that are spelled in one way.
ghost use Rattle.std.specs.Prelude.{◌≡◌};
ghost use Rattle.cat_parse_expr.specs.Cues.{cue_is};

use cat_lex::{DoubleKeyword, Keyword, Symbol, TokenKind};

/// A word that is spelled in one way.
#[derive(Clone, Copy)]
pub enum Cue {
    Word(Keyword),
    Pair(DoubleKeyword),
    Sign(Symbol),
}

/// Whether a token is that word.
pub fn cue_is(cue: Cue, kind: &TokenKind) -> bool
    ensures { result ≡ cue_is cue kind.now }
{
    match cue {
        Cue::Word(wanted) => match kind {
            TokenKind::Word(found) => *found == wanted,
            _ => false,
        },
        Cue::Pair(wanted) => match kind {
            TokenKind::Pair(found) => *found == wanted,
            _ => false,
        },
        Cue::Sign(wanted) => match kind {
            TokenKind::Symbol(found) => *found == wanted,
            _ => false,
        },
    }
}
