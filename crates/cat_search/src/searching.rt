// A search on its way.
ghost use Rattle.std.specs.Prelude.{◌≡◌, ◌<◌, ◌≤◌, ◌+◌, ◌++◌, ◌∷◌, [], true, false, IsTrue, IfOk, OnOk, IfSome};
ghost use Rattle.std.specs.Prelude.{List as Listed, All, length, slice_get};
ghost use Rattle.cat_region.specs.Sides.{Turns, true_sides};
ghost use Rattle.cat_scope.specs.Names.{IsOneOf};
ghost use Rattle.cat_guard.specs.declared.levels.Levels.{Levels as LevelsSeen};
ghost use Rattle.cat_guard.specs.declared.table.Term.{Term as TermSeen};
ghost use Rattle.cat_guard.specs.declared.table.Atom.{Atom as AtomSeen};
ghost use Rattle.cat_guard.specs.declared.table.TableTarget.{TableTarget as TargetSeen};
ghost use Rattle.cat_guard.specs.declared.tree.TreeNode.TheVariants.{Rest as RestSeen};
ghost use Rattle.cat_guard.specs.Trees.{is_tree};
ghost use Rattle.cat_guard.specs.Valuations.{dims_of};
ghost use Rattle.cat_guard.specs.Levels.{AreLiveTo};
ghost use Rattle.cat_guard.specs.Judgements.{atoms_in};
ghost use Rattle.cat_search.specs.declared.node.NextNode.TheVariants.{Leaf as LeafMade};
ghost use Rattle.cat_search.specs.Searched.{IsSplit, roomy};
ghost use Rattle.cat_search.specs.inside.Underway.{IsMadeOf, IsUnderway, IsComplete, IsTurned, bad_one, begun, ended};
ghost use Rattle.cat_search.specs.inside.ToCome.{leaf_nodes, rest_nodes};

use crate::bad::{BadLeaf, Flaw, Leaves};
use crate::node::{NextNode, next_node};
use cat_guard::{CaseTree, Levels, Table, TreeNode, TreeNodes, answer_atom};
use cat_pos::List;
use cat_region::{Region, to_false_side};
use std::alloc::{AllocError, Global};

/// Where a search is and what it has found so far.
#[derive(Drop)]
pub struct Searching {
    /// The region where it is, with room for an answer to each atom of the table.
    pub region: Region,
    /// The nodes in preorder, as far as they are written.
    pub nodes: TreeNodes,
    /// The greatest number of splits above one of these.
    pub depth: usize,
    pub bad: Leaves,
}

/// Adds a leaf to the bad ones, where something is wrong with it.
fn add_bad(bad: &mut Leaves, leaf: usize, flaw: Option<Flaw>) -> Result<(), AllocError>
    ensures { OnOk result (bad.new ≡ bad.old ++ bad_one leaf flaw) }
{
    match flaw {
        None => Ok(()),
        Some(flaw) => bad.push(BadLeaf { leaf, flaw }),
    }
}

impl Searching {
    /// A search that begins in a region.
    pub(crate) fn new(alloc: Global, region: Region) -> Searching
        ensures { result ≡ begun region }
    {
        Searching {
            region,
            nodes: List::new(alloc),
            depth: 0,
            bad: List::new(alloc),
        }
    }

    /// Writes a node without sides for the region where it is.
    fn end(&mut self, table: &Table, node: TreeNode) -> Result<(), AllocError>
        requires { self.old.region.room ≤ length table.now.atoms }
        ensures { OnOk result (self.new ≡ ended node (length table.now.atoms) self.old) }
    {
        let above = table.atoms.len() - self.region.room();
        self.depth = self.depth.max(above);
        self.nodes.push(node)
    }

    fn leaf(&mut self, table: &Table, flaw: Option<Flaw>) -> Result<(), AllocError>
        requires { self.old.region.room ≤ length table.now.atoms }
        ensures underway { (t : TargetSeen) → IsUnderway table.now.terms table.now.atoms t true self.old
            → IsMadeOf table.now.atoms t self.old.region (LeafMade flaw)
            → OnOk result (IsUnderway table.now.terms table.now.atoms t false self.new) }
        ensures leaves { OnOk result (leaf_nodes self.new.nodes ≡ leaf_nodes self.old.nodes + 1) }
        ensures rests { OnOk result (rest_nodes self.new.nodes ≡ rest_nodes self.old.nodes) }
        ensures region { OnOk result (self.new.region ≡ self.old.region) }
    {
        add_bad(&mut self.bad, self.nodes.len(), flaw)?;
        self.end(table, TreeNode::Leaf)
    }

    /// Writes a split on an atom, and goes on to its true side.
    fn split(&mut self, table: &Table, atom: usize) -> Result<(), AllocError>
        requires atom { atom < length table.now.atoms }
        requires dims { self.old.region.dims ≡ dims_of table.now.terms }
        requires room { 0 < self.old.region.room }
        ensures underway { (t : TargetSeen) → IsUnderway table.now.terms table.now.atoms t true self.old
            → IsSplit table.now.atoms t self.old.region atom
            → OnOk result (IsUnderway table.now.terms table.now.atoms t true self.new) }
        ensures leaves { OnOk result (leaf_nodes self.new.nodes ≡ leaf_nodes self.old.nodes) }
        ensures rests { OnOk result (rest_nodes self.new.nodes ≡ rest_nodes self.old.nodes) }
        ensures room { OnOk result (self.new.region.room < self.old.region.room) }
        ensures live { (t : TargetSeen) (levels : LevelsSeen)
            → AreLiveTo table.now.atoms t self.old.region levels
            → OnOk result (AreLiveTo table.now.atoms t self.new.region levels) }
    {
        self.nodes.push(TreeNode::Split(atom))?;
        answer_atom(table, &mut self.region, atom, true);
        Ok(())
    }

    /// Splits until there is a leaf.
    pub(crate) fn to_leaf(
        &mut self,
        alloc: Global,
        table: &Table,
        target: u32,
        order: &[usize],
        levels: &mut Levels,
    ) -> Result<(), AllocError>
        requires target { target < length table.now.targets }
        requires order { IfSome (slice_get table.now.targets target)
            (λ t. All (λ a. IsOneOf a (atoms_in t)) order.now) }
        requires underway { IfSome (slice_get table.now.targets target)
            (λ t. IsUnderway table.now.terms table.now.atoms t true self.old) }
        requires live { IfSome (slice_get table.now.targets target)
            (λ t. AreLiveTo table.now.atoms t self.old.region levels.old) }
        ensures underway { OnOk result (IfSome (slice_get table.now.targets target)
            (λ t. IsUnderway table.now.terms table.now.atoms t false self.new)) }
        ensures live { OnOk result (IfSome (slice_get table.now.targets target)
            (λ t. AreLiveTo table.now.atoms t self.new.region levels.new)) }
        ensures leaves { OnOk result (leaf_nodes self.new.nodes ≡ leaf_nodes self.old.nodes + 1) }
        ensures rests { OnOk result (rest_nodes self.new.nodes ≡ rest_nodes self.old.nodes) }
    {
        loop {
            let live = levels.live_in(alloc, table, target, &self.region)?;
            match next_node(table, target, &self.region, order, &live) {
                NextNode::Split(atom) => {
                    levels.keep(&self.region, live)?;
                    self.split(table, atom)?;
                }
                NextNode::Leaf(flaw) => return self.leaf(table, flaw),
            }
        }
    }

    /// Goes back to the last split whose false side is still to come, and over to that, where there is one. A region
    /// with that room is the whole.
    pub(crate) fn turn(&mut self, room: usize) -> bool
        ensures turned { (terms : Listed TermSeen) (atoms : Listed AtomSeen) (t : TargetSeen) → length atoms ≡ room
            → IsUnderway terms atoms t false self.old → IsTurned terms atoms t result self.new }
        ensures nodes { self.new.nodes ≡ self.old.nodes }
        ensures way { (terms : Listed TermSeen) (atoms : Listed AtomSeen) (t : TargetSeen) → length atoms ≡ room
            → (underway : IsUnderway terms atoms t false self.old)
            → Turns (roomy terms atoms) underway.path result self.new.region }
        ensures fewer { IsTrue result
            → true_sides self.new.region.narrowings < true_sides self.old.region.narrowings }
    {
        to_false_side(&mut self.region, room)
    }

    /// Writes a rest for the region where it is, and for each one that is to come.
    pub(crate) fn rests(&mut self, table: &Table, target: u32) -> Result<(), AllocError>
        requires target { target < length table.now.targets }
        requires underway { IfSome (slice_get table.now.targets target)
            (λ t. IsUnderway table.now.terms table.now.atoms t true self.old) }
        ensures complete { OnOk result (IfSome (slice_get table.now.targets target)
            (λ t. IsComplete table.now.terms table.now.atoms t self.new)) }
        ensures leaves { OnOk result (leaf_nodes self.new.nodes ≡ leaf_nodes self.old.nodes) }
        ensures rests { OnOk result (rest_nodes self.old.nodes < rest_nodes self.new.nodes) }
    {
        let room = table.atoms.len();
        self.end(table, TreeNode::Rest)?;
        while self.turn(room) {
            self.end(table, TreeNode::Rest)?;
        }
        Ok(())
    }

    /// The tree that is written, its bad leaves, and the region.
    pub(crate) fn into_parts(self) -> (CaseTree, Leaves, Region)
        requires { IsTrue (is_tree self.nodes self.depth) }
        ensures tree { result.0.nodes ≡ self.nodes }
        ensures bad { result.1 ≡ self.bad }
        ensures region { result.2 ≡ self.region }
    {
        let Searching {
            region,
            nodes,
            depth,
            bad,
        } = self;
        (CaseTree::from_parts(nodes, depth), bad, region)
    }
}
