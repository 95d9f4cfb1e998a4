// What is asked of a line by its number.
ghost use Rattle.std.specs.Prelude.{◌≡◌, true, false, IfOk, IfErr};
ghost use Rattle.cat_image.specs.Listed.{pos_words};
ghost use Rattle.cat_verify_tables.specs.inside.Causes.{AtLine};
ghost use Rattle.cat_verify_tables.specs.inside.FoundPlaces.{is_found};

use crate::TableRefusal;
use cat_image::ImagePos;
use cat_pos::{MOST_FILES, MOST_INPUT_BYTES, Pos};

/// Refuses the line where a test fails.
pub(crate) fn needed(test: bool, line: usize) -> Result<(), TableRefusal>
    ensures passes { IfOk result (λ _. test ≡ true) }
    ensures cause { IfErr result (AtLine line (test ≡ false)) }
{
    if test {
        Ok(())
    } else {
        Err(TableRefusal::BadTable(line))
    }
}

/// Whether a position is in one of so many files, where a source of a program may have it.
fn is_found(files: usize, pos: ImagePos) -> bool
    ensures { result ≡ is_found files pos }
{
    let file = pos.file as usize;
    file < files && file < MOST_FILES && (pos.column as usize) < MOST_INPUT_BYTES
}

/// A position in one of so many files, or a refusal of the line where no source has it.
pub(crate) fn position(files: usize, pos: ImagePos, line: usize) -> Result<Pos, TableRefusal>
    ensures words { IfOk result (λ found. pos_words found ≡ pos) }
    ensures found { IfOk result (λ _. is_found files pos ≡ true) }
    ensures cause { IfErr result (AtLine line (is_found files pos ≡ false)) }
{
    if !is_found(files, pos) {
        return Err(TableRefusal::BadTable(line));
    }
    Ok(Pos::new(pos.file, pos.line, pos.column))
}
