// Where the pieces of one file begin, and how many headings stand in front of them.
ghost use Rattle.std.specs.Prelude.{◌≡◌, false, OnOk};
ghost use Rattle.cat_trace.specs.inside.Starts.{Ascend, KeepsUpTo, Puts, ends_behind, headings_at};

use cat_pos::List;
use std::alloc::AllocError;

/// The line in which a piece begins, and how many headings stand in front of it.
#[derive(Clone, Copy, Debug)]
pub struct Start {
    pub line: u32,
    pub headings: usize,
}

/// The pieces of one file, by their lines.
pub type Starts = List<Start>;

/// Whether the last piece begins behind a line.
fn ends_behind(starts: &Starts, line: u32) -> bool
    ensures { result ≡ ends_behind line starts.now }
{
    match starts.as_slice().last() {
        Some(last) => line < last.line,
        None => false,
    }
}

/// Takes away the pieces that begin behind a line.
#[tactic(auto, using(crate::proofs::StartLemmas::dropping))]
fn drop_behind(starts: &mut Starts, line: u32)
    requires { Ascend starts.old }
    ensures kept { KeepsUpTo line starts.old starts.new }
    ensures none { ends_behind line starts.new ≡ false }
{
    while ends_behind(starts, line) {
        starts.pop();
    }
}

/// Puts a piece behind those that stand in front of it. Where they come by their lines, as those of a file do, none is
/// taken away.
#[tactic(auto, using(crate::proofs::StartLemmas::putting))]
pub fn put_start(starts: &mut Starts, start: Start) -> Result<(), AllocError>
    requires { Ascend starts.old }
    ensures ascend { OnOk result (Ascend starts.new) }
    ensures put { OnOk result (Puts start starts.old starts.new) }
{
    drop_behind(starts, start.line);
    starts.push(start)
}

/// How many headings stand in front of the piece in which a line stands. It takes a logarithm of the count of pieces.
pub fn headings_at(starts: &Starts, line: u32) -> usize
    requires { Ascend starts.now }
    ensures { result ≡ headings_at line starts.now }
{
    let starts = starts.as_slice();
    let up_to = starts.partition_point(|start| start.line <= line);
    if up_to == 0 {
        return 0;
    }
    starts[up_to - 1].headings
}
