//! A step of a path into an input.
use cat_pos::Text;

/// A step from a part of an input to a part of it.
#[derive(Debug, Drop)]
pub enum Step {
    /// To the member of that name: a variable, a field, a part of a duration, or the content of that case.
    Name(Text),
    /// To the element of that number, counted from 0.
    Element(usize),
}
