// Decision trees over the atoms of a target.
ghost use Rattle.std.specs.Prelude.{◌≡◌, IsTrue};
ghost use Rattle.cat_guard.specs.Trees.{is_tree};

use cat_pos::List;

/// A node of a decision tree. A split is on the atom of that number, and the side where it is true stands first.
#[derive(Clone, Copy, PartialEq, Eq, Debug)]
pub enum TreeNode {
    Split(usize),
    Leaf,
    /// What is not explored.
    Rest,
}

pub type TreeNodes = List<TreeNode>;

/// A decision tree: its nodes in preorder, and the greatest number of splits above one of them.
#[derive(Debug, Drop)]
pub struct CaseTree {
    pub nodes: TreeNodes,
    pub depth: usize,
    pub ghost sound: { IsTrue (is_tree nodes depth) },
}

impl CaseTree {
    pub fn from_parts(nodes: TreeNodes, depth: usize) -> CaseTree
        requires { IsTrue (is_tree nodes depth) }
        ensures nodes { result.nodes ≡ nodes }
        ensures depth { result.depth ≡ depth }
    {
        CaseTree { nodes, depth }
    }

    /// The greatest number of splits above a node.
    pub fn depth(&self) -> usize
        ensures { result ≡ self.now.depth }
    {
        self.depth
    }
}

/// A node of a tree that may stand for a named one.
#[derive(Clone, Copy, PartialEq, Eq, Debug)]
pub enum CitedNode {
    Split(usize),
    Leaf,
    /// The named tree of that number.
    Cite(usize),
}

pub type CitedNodes = List<CitedNode>;

pub type CitedNames = List<CitedNodes>;

/// A tree some of whose parts are named: the named trees, each of which cites earlier ones alone, and the tree itself,
/// all in preorder.
#[derive(Debug, Drop)]
pub struct CitedTree {
    pub names: CitedNames,
    pub main: CitedNodes,
}
