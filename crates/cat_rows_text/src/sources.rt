//! The tokens of texts.
ghost use Rattle.std.specs.Prelude.{◌≡◌, ◌≤◌, IfOk};
ghost use Rattle.cat_pos.specs.Position.{pos_of, pos_column};
ghost use Rattle.cat_pos.specs.declared.limits.TheConstants.{LAST_LINE};
ghost use Rattle.cat_pos.specs.Readable.{IsReadable};

use cat_lex::{LexRefusal, Tokens, lex};
use cat_pos::{MOST_FILE_BYTES, Piece, Pos, Text};
use cat_rows::Problem;
use std::alloc::Global;

/// The start of a file.
fn start() -> Pos
    ensures { result ≡ pos_of 0 1 1 }
{
    Pos::new(0, 1, 1)
}

/// The tokens of a text that stands in the first line of a file.
pub fn tokens_of(alloc: Global, text: &str) -> Result<Tokens, Problem> {
    let piece = piece_of(alloc, text, start())?;
    lex(alloc, &[piece]).ok().ok_or(Problem::Unreadable)
}

/// The tokens of two pieces, of which the second stands at the start of another file.
pub fn tokens_of_two(
    alloc: Global,
    first: &str,
    pos: Pos,
    second: &str,
) -> Result<Result<Tokens, LexRefusal>, Problem>
    requires line { pos.line ≤ LAST_LINE }
    requires column { pos_column pos ≤ LAST_LINE }
{
    let first = piece_of(alloc, first, pos)?;
    let second = piece_of(alloc, second, start())?;
    Ok(lex(alloc, &[first, second]))
}

fn piece_of(alloc: Global, text: &str, pos: Pos) -> Result<Piece, Problem>
    requires line { pos.line ≤ LAST_LINE }
    requires column { pos_column pos ≤ LAST_LINE }
    ensures { IfOk result (λ piece. IsReadable piece) }
{
    if text.len() > MOST_FILE_BYTES {
        return Err(Problem::Unreadable);
    }
    let text = Text::from_str(alloc, text)?;
    Ok(Piece { text, pos })
}
