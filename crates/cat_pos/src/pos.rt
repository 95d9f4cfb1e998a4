// Where something stands in a source file.
ghost use Rattle.std.specs.Prelude.{◌≡◌, ◌≤◌, ◌<◌, ◌*◌, length};
ghost use Rattle.cat_pos.specs.Position.{pos_of, pos_file, pos_column, position_of};

use crate::{COLUMNS_BOUND, List, MOST_FILE_BYTES, MOST_FILES, Text};

/// A position in a source file: the file's number, and line and column from 1. A column counts bytes. It takes 8 bytes,
/// since a source has millions of them.
#[derive(Clone, Copy, Debug, PartialEq, Eq)]
pub struct Pos {
    pub line: u32,
    /// The column times `MOST_FILES`, and the number of the file.
    pub place: u32,
}

/// As many as a program may have.
const FILES: u32 = MOST_FILES as u32;

impl Pos {
    pub fn new(file: u32, line: u32, column: u32) -> Pos
        requires file { file < MOST_FILES }
        requires column { column < COLUMNS_BOUND }
        ensures { result ≡ pos_of file line column }
    {
        Pos {
            line,
            place: column * FILES + file,
        }
    }

    /// The number of the file.
    pub fn file(self) -> u32
        ensures value { result ≡ pos_file self }
        ensures few { result < MOST_FILES }
    {
        self.place % FILES
    }

    pub fn column(self) -> u32
        ensures value { result ≡ pos_column self }
        ensures few { result < COLUMNS_BOUND }
    {
        self.place / FILES
    }
}

pub type Positions = List<Pos>;

/// A run of source code that stands at a position of its file.
#[derive(Debug, Drop)]
pub struct Piece {
    pub text: Text,
    pub pos: Pos,
}

pub type Pieces = List<Piece>;

const LINE_FEED: u8 = 10;

/// The position of an offset in a file.
#[tactic(auto, using(crate::proofs::Walking::walking))]
pub fn pos_at(text: &[u8], file: u32, offset: usize) -> Pos
    requires within { offset ≤ length text.now }
    requires short { length text.now ≤ MOST_FILE_BYTES }
    requires file { file < MOST_FILES }
    ensures { result ≡ position_of text.now file offset }
{
    let mut line = 1;
    let mut column = 1;
    for &byte in &text[..offset] {
        if byte == LINE_FEED {
            line += 1;
            column = 1;
        } else {
            column += 1;
        }
    }
    Pos::new(file, line, column)
}
