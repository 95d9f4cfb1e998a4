// Where nodes of a tree with citations are written.

/// A node by where it is written: the list, which is the number of a named tree or, for the tree itself, the number of
/// named trees; and its index in that list.
#[derive(Clone, Copy, PartialEq, Eq, Debug)]
pub struct NodePlace {
    pub list: usize,
    pub node: usize,
}
