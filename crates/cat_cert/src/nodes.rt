// Reads the nodes of one list of a tree.
ghost use Rattle.std.specs.Prelude.{◌≡◌, ◌+◌, ◌^◌, ◌<◌, ◌≤◌, [], Bool, IfOk, MatchOption};
ghost use Rattle.cat_cert.specs.declared.certificate.Version.{Version as Versions};
ghost use Rattle.cat_cert.specs.Certified.{is_atom_of};
ghost use Rattle.cat_guard.specs.declared.table.TableTarget.{TableTarget};
ghost use Rattle.cat_walk.specs.Sizes.{most_leaves};
ghost use Rattle.cat_cert.specs.inside.Atoms.{HasAtoms};
ghost use Rattle.cat_cert.specs.inside.States.{Growing, AtNode, after_list, leaves_there, pending_after};
ghost use Rattle.cat_cert.specs.inside.Outcomes.{IsWithin, ending, Passes};

use crate::line::node_of;
use crate::place::{Place, next_line};
use crate::{CertRefusal, MOST_LEAVES};
use cat_guard::{CitedNode, CitedNodes};
use std::alloc::Global;
use std::collections::BTreeSet;

/// What is read of a list: its nodes, and their leaves.
#[derive(Drop)]
pub(crate) struct Nodes {
    pub nodes: CitedNodes,
    pub count: u32,
}

/// The leaves of a node, where it may stand: they are those of the named tree that it cites.
fn leaves_there(atoms: &BTreeSet<usize>, named: &[u32], node: CitedNode) -> Option<u32>
    ensures { (t : TableTarget) → HasAtoms atoms.now t → result ≡ leaves_there (is_atom_of t) named.now node }
{
    match node {
        CitedNode::Split(atom) => { if atoms.contains(&atom) { Some(0) } else { None } }
        CitedNode::Leaf => Some(1),
        CitedNode::Cite(name) => named.get(name).copied(),
    }
}

/// The sum, where it doesn't pass the most leaves.
fn sum(count: u32, leaves: u32) -> Option<u32>
    ensures { MatchOption result (most_leaves < count + leaves) (λ s. (s ≡ count + leaves) × (s ≤ most_leaves)) }
{
    let sum = count.checked_add(leaves)?;
    if sum > MOST_LEAVES { None } else { Some(sum) }
}

/// How many subtrees follow the one that comes next, behind a node; none where the list is whole.
fn pending_after(node: CitedNode, pending: usize) -> Option<usize>
    requires { pending + 1 < 2 ^ 64 }
    ensures { result ≡ pending_after node pending }
{
    match node {
        CitedNode::Split(_) => Some(pending + 1),
        CitedNode::Leaf | CitedNode::Cite(_) => pending.checked_sub(1),
    }
}

/// Reads the nodes of a list, each of whose citations is of a tree with so many leaves.
pub(crate) fn read_nodes(
    alloc: Global,
    bytes: &[u8],
    place: &mut Place,
    atoms: &BTreeSet<usize>,
    named: &[u32],
) -> Result<Nodes, CertRefusal>
    requires { IsWithin bytes.now place.old }
    ensures within { IfOk result (λ read. IsWithin bytes.now place.new) }
    ensures later { IfOk result (λ read. place.old.at ≤ place.new.at) }
    ensures read { (v : Versions) (main : Bool) (p : Growing) → HasAtoms atoms.now p.target → named.now ≡ p.named
        → Passes (ending (AtNode v main p [] 0 0) bytes.now place.old) result
        (λ read. ending (after_list v main p read.nodes read.count) bytes.now place.new) }
{
    let mut nodes = CitedNodes::new(alloc);
    let mut pending: usize = 0;
    let mut count: u32 = 0;
    while let Some(line) = next_line(bytes, place) {
        let Some(node) = node_of(line) else {
            return Err(CertRefusal::BadLine(place.line));
        };
        let Some(leaves) = leaves_there(atoms, named, node) else {
            return Err(CertRefusal::BadLine(place.line));
        };
        let Some(sum) = sum(count, leaves) else {
            return Err(CertRefusal::TooWide(place.line));
        };
        nodes.push(node)?;
        count = sum;
        // The number of the subtrees that follow fits, since it is no greater than that of the nodes.
        let _length = nodes.len();
        let Some(next) = pending_after(node, pending) else {
            return Ok(Nodes { nodes, count });
        };
        pending = next;
    }
    Err(CertRefusal::Short)
}
