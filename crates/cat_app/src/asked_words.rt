// What words ask of a scope.
ghost use Rattle.std.specs.Prelude.{IsTrue};
ghost use Rattle.cat_image.specs.Listed.{is_line};

use crate::request::Mode;

/// What is asked for, with the names of the source and of the input, the certificate or the target, and the number of
/// cases. The source's name is a line of text.
#[derive(Clone, Copy, Debug)]
pub struct AskedWords<'a> {
    pub mode: Mode,
    pub scope: &'a str,
    pub file: &'a str,
    pub extra: &'a str,
    pub cases: u32,
    pub ghost line: { IsTrue (is_line file.now) },
}
