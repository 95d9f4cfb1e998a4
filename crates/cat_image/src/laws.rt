// Laws of images.
ghost use Rattle.std.specs.Prelude.{◌≡◌, ℕ, List};
ghost use Rattle.cat_code.specs.declared.instr.Instr.{Instr};
ghost use Rattle.cat_listing.specs.Listing.{listing};
ghost use Rattle.cat_image.specs.declared.tables.ImageTables.{ImageTables};
ghost use Rattle.cat_image.specs.Image.{IsImage};
ghost use Rattle.cat_image.specs.Listed.{IsListable, words_of};

use cat_code::Code;
use cat_pos::Files;

/// A text is the image of tables and instructions at most once.
pub fn a_text_has_one_image()
    ensures { (bytes : List ℕ) (tables others : ImageTables) (is js : List Instr) → IsImage bytes tables is
        → IsImage bytes others js → (tables ≡ others) × (is ≡ js) }
{}

/// What is listed of code is the image of its words, where these may stand in lines.
pub fn a_listing_is_an_image(code: &Code, files: &Files)
    ensures { IsListable (words_of code.now.tables files.now) code.now.instructions
        → IsImage (listing code.now files.now) (words_of code.now.tables files.now) code.now.instructions }
{}
