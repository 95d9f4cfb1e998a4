// Which headings stand over positions.
ghost use Rattle.std.specs.Prelude.{◌≡◌, ◌≤◌, ◌+◌, IfOk, drop, length, map};
ghost use Rattle.std.specs.List.{prefix_len};
ghost use Rattle.cat_trace.specs.Over.{headings_before, is_in_front, placed_at};
ghost use Rattle.cat_trace.specs.inside.Starts.{AreStarts};

use crate::starts::{Start, Starts, headings_at, put_start};
use cat_pos::{List, MOST_FILES, Piece, Pos, empty_lists};
use cat_weave::Heading;
use std::alloc::{AllocError, Global};

/// A position, and how many headings stand in front of the piece in which it stands.
#[derive(Clone, Copy, Debug)]
pub struct Placed {
    pub pos: Pos,
    pub headings: usize,
}

/// How many headings stand in front of a piece, where the first `from` do.
#[tactic(auto, using(crate::proofs::PlacingLemmas::counting), unfolding(crate::specs::Over::headings_before))]
fn headings_before(headings: &[Heading], from: usize, piece: usize) -> usize
    requires within { from ≤ length headings.now }
    requires so_far { from + prefix_len (is_in_front piece) (drop from headings.now)
        ≡ headings_before headings.now piece }
    ensures before { result ≡ headings_before headings.now piece }
    ensures within { result ≤ length headings.now }
{
    let mut before = from;
    while before < headings.len() && headings[before].pieces <= piece {
        before += 1;
    }
    before
}

/// The pieces of each file, in one pass over all pieces and headings.
#[tactic(auto, using(crate::proofs::PlacingLemmas::passing))]
fn starts_by_file(
    alloc: Global,
    pieces: &[Piece],
    headings: &[Heading],
) -> Result<Vec<Starts>, AllocError>
    ensures { IfOk result (λ lists. AreStarts headings.now pieces.now lists.items) }
{
    let mut starts = empty_lists(alloc, MOST_FILES)?;
    let mut before = 0;
    for (n, piece) in pieces.iter().enumerate() {
        before = headings_before(headings, before, n);
        let start = Start {
            line: piece.pos.line,
            headings: before,
        };
        put_start(&mut starts[piece.pos.file() as usize], start)?;
    }
    Ok(starts)
}

/// Where each of some positions stands.
pub fn places(
    alloc: Global,
    positions: &[Pos],
    pieces: &[Piece],
    headings: &[Heading],
) -> Result<List<Placed>, AllocError>
    ensures { IfOk result (λ places. places ≡ map (placed_at headings.now pieces.now) positions.now) }
{
    let starts = starts_by_file(alloc, pieces, headings)?;
    let mut places = List::new(alloc);
    for &pos in positions {
        let headings = headings_at(&starts[pos.file() as usize], pos.line);
        places.push(Placed { pos, headings })?;
    }
    Ok(places)
}
