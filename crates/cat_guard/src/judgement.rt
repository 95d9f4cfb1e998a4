// What a region tells of a target.

/// How a target is judged in a region. Where it is open, an atom of the target is named that the region doesn't decide.
#[derive(Clone, Copy, PartialEq, Eq, Debug)]
pub enum Judgement {
    Holds,
    Empty,
    Conflict,
    Needs(usize),
}
