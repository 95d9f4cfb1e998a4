// What a certificate holds.
use cat_guard::CitedTree;
use cat_pos::List;

/// The leaves that a tree may have, and each of its named trees.
pub const MOST_LEAVES: u32 = 16_777_216;

/// How a certificate is written: whole trees, or trees whose parts may be named and cited.
#[derive(Clone, Copy, PartialEq, Eq, Debug)]
pub enum Version {
    One,
    Two,
}

/// Numbers of lines, from 1.
pub type LineNumbers = List<usize>;

/// The tree of one target.
#[derive(Debug, Drop)]
pub struct CertTree {
    pub tree: CitedTree,
    /// The line before the first node of each named tree, and of the tree itself: its nodes stand in the lines behind.
    pub heads: LineNumbers,
}

pub type CertTrees = List<CertTree>;

/// What is read of a certificate: the trees of the targets, in their order.
#[derive(Debug, Drop)]
pub struct Certificate {
    pub version: Version,
    pub trees: CertTrees,
}
