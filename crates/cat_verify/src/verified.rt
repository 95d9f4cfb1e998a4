// Code that was verified.
ghost use Rattle.std.specs.Prelude.{◌≡◌};

use cat_code::Code;
use cat_pos::Files;
use cat_value::Decls;

/// Valid and tame code with the names of its files.
#[derive(Debug, Drop)]
pub struct Verified {
    pub code: Code,
    pub files: Files,
}

impl Verified {
    pub(crate) fn new(code: Code, files: Files) -> Verified
        ensures code { result.code ≡ code }
        ensures files { result.files ≡ files }
    {
        Verified { code, files }
    }

    pub fn code(&self) -> &Code
        ensures { result.now ≡ self.now.code }
    {
        &self.code
    }

    pub fn decls(&self) -> &Decls
        ensures { result.now ≡ self.now.code.tables.decls }
    {
        self.code.tables.decls.get()
    }

    pub fn files(&self) -> &Files
        ensures { result.now ≡ self.now.files }
    {
        &self.files
    }
}
