// A listing that was read.
ghost use Rattle.std.specs.Prelude.{◌≡◌, ◌≤◌, length};
ghost use Rattle.cat_pos.specs.Limits.{most_input_bytes};
ghost use Rattle.cat_image.specs.Rows.{rows_of};
ghost use Rattle.cat_image.specs.Image.{IsSomeImage};

use crate::ImageTables;
use cat_code::{Instr, Instrs};

/// Tables and instructions that some text of at most 64 MiB lists.
#[derive(Debug, Drop)]
pub struct Image {
    pub tables: ImageTables,
    pub instructions: Instrs,
    pub ghost listed: { IsSomeImage tables instructions },
}

impl Image {
    pub(crate) fn from_parts(tables: ImageTables, instructions: Instrs) -> Image
        requires { IsSomeImage tables instructions }
        ensures tables { result.tables ≡ tables }
        ensures instructions { result.instructions ≡ instructions }
    {
        Image {
            tables,
            instructions,
        }
    }

    pub fn tables(&self) -> &ImageTables
        ensures { result.now ≡ self.now.tables }
    {
        &self.tables
    }

    pub fn instructions(&self) -> &[Instr]
        ensures { result.now ≡ self.now.instructions }
    {
        self.instructions.as_slice()
    }
}

/// What the invariant of images says.
pub fn an_image_is_listed(image: &Image)
    ensures { IsSomeImage image.now.tables image.now.instructions }
{}

/// So each line, and each of its parts, has a number of 32 bits.
pub fn an_image_has_few_rows(image: &Image)
    ensures { length (rows_of image.now.tables image.now.instructions) ≤ most_input_bytes }
{
    an_image_is_listed(image);
}
