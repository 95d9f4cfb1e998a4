// A pool of nodes.
ghost use Rattle.std.specs.Prelude.{◌≡◌, ◌<◌, ◌≤◌, ◌+◌, ◌++◌, ◌∷◌, [], length, take, slice_get, Some, IfOk, OnOk};
ghost use Rattle.std.specs.Prelude.{OnErr};
ghost use Rattle.cat_pool.specs.Nodes.{AreBelow, IsPlaced, IsPlain, IsWithin, in_range, kept_parts, lone, listed};
ghost use Rattle.cat_pool.specs.Nodes.{structured, value_in, values};
ghost use Rattle.cat_pool.specs.Marks.{IsMarkIn, mark_of};
ghost use Rattle.cat_pool.specs.inside.Laid.{part_node};

use crate::node::{PoolNode, Ref, Refs};
use std::alloc::{AllocError, Global};
use std::marker::Model;

/// So many nodes, or so many references of lists and structures, are as if memory had run out.
const MOST: usize = 0xFFFF_FFFF;

/// Nodes that come one behind the other, and the references that lists and structures keep, in their order. Contracts
/// see of each node its value and the references that it keeps.
#[derive(Drop)]
pub struct Pool {
    nodes: Vec<PoolNode>,
    parts: Vec<Ref>,
}

impl Model for Pool {
    ghost use Rattle.std.specs.Prelude.{List, []};
    ghost use Rattle.std.specs.Coded.{codes};
    ghost use Rattle.cat_value.specs.contracts.value.Value as valued;
    ghost use Rattle.cat_pool.specs.Nodes.{Standing};
    ghost use Rattle.cat_pool.specs.inside.Laid.{IsPool, seen};

    ghost Value = { List Standing };

    ghost coded = { Prim.hlevel (codes, valued.the_row.coded) };

    ghost view = { λ p. seen p.parts.items [] p.nodes.items };

    ghost invariant = { λ p. IsPool p.nodes.items p.parts.items };
}

/// How many nodes a pool has, and how many references its lists and structures keep.
#[derive(Clone, Copy, PartialEq, Eq, Debug)]
pub struct Mark {
    pub nodes: u32,
    pub parts: u32,
}

/// What the parts are of.
#[derive(Clone, Copy, Debug)]
pub(crate) enum Compound {
    List,
    Structure,
}

fn part_node(compound: Compound, refs: Refs) -> PoolNode
    ensures { result ≡ part_node compound refs }
{
    match compound {
        Compound::List => PoolNode::List(refs),
        Compound::Structure => PoolNode::Structure(refs),
    }
}

/// A list or a structure behind the nodes, and its parts behind those that are kept.
fn lay(
    nodes: &mut Vec<PoolNode>,
    kept: &mut Vec<Ref>,
    compound: Compound,
    parts: &[Ref],
) -> Result<Ref, AllocError>
    ensures place { IfOk result (λ r. r ≡ length nodes.old.items) }
    ensures places { OnOk result (length nodes.old.items + 1 < 4294967296) }
    ensures fits { OnOk result (length kept.old.items + length parts.now < 4294967296) }
    ensures nodes { OnOk result (nodes.new.items ≡ nodes.old.items ++ part_node compound
        (record { start = length kept.old.items; end = length kept.old.items + length parts.now }) ∷ []) }
    ensures kept { OnOk result (kept.new.items ≡ kept.old.items ++ parts.now) }
    ensures err { OnErr result ((nodes.new.items ≡ nodes.old.items) × (kept.new.items ≡ kept.old.items)) }
{
    let place = nodes.len();
    let start = kept.len();
    if place >= MOST || start >= MOST || parts.len() >= MOST - start {
        return Err(AllocError);
    }
    kept.extend_from_slice(parts)?;
    let refs = Refs {
        start: start as u32,
        end: kept.len() as u32,
    };
    if nodes.push(part_node(compound, refs)).is_err() {
        kept.truncate(start);
        return Err(AllocError);
    }
    Ok(place as u32)
}

/// The references of a range.
fn part_of(kept: &Vec<Ref>, refs: Refs) -> &[Ref]
    requires ordered { refs.start ≤ refs.end }
    requires within { refs.end ≤ length kept.now.items }
    ensures { result.now ≡ in_range kept.now.items refs }
{
    &kept[refs.start as usize..refs.end as usize]
}

impl Pool {
    pub fn new(alloc: Global) -> Pool
        ensures { result ≡ [] }
    {
        Pool {
            nodes: Vec::new(alloc),
            parts: Vec::new(alloc),
        }
    }

    pub fn len(&self) -> u32
        ensures { result ≡ length self.now }
    {
        let count = self.nodes.len();
        count as u32
    }

    /// One node more, the last: one without parts, or a case.
    pub fn put(&mut self, node: PoolNode) -> Result<Ref, AllocError>
        requires { IsPlain self.old node }
        ensures place { IfOk result (λ r. r ≡ length self.old) }
        ensures ok { OnOk result (self.new ≡ self.old ++ lone (value_in self.old node) ∷ []) }
        ensures err { OnErr result (self.new ≡ self.old) }
    {
        let place = self.nodes.len();
        if place >= MOST {
            return Err(AllocError);
        }
        self.nodes.push(node)?;
        Ok(place as u32)
    }

    /// A list of these elements, as the last node.
    pub fn put_list(&mut self, parts: &[Ref]) -> Result<Ref, AllocError>
        requires { AreBelow (length self.old) parts.now }
        ensures place { IfOk result (λ r. r ≡ length self.old) }
        ensures ok { OnOk result (self.new ≡ self.old ++ listed self.old parts.now ∷ []) }
        ensures err { OnErr result (self.new ≡ self.old) }
    {
        lay(&mut self.nodes, &mut self.parts, Compound::List, parts)
    }

    /// A structure of these fields, as the last node.
    pub fn put_structure(&mut self, parts: &[Ref]) -> Result<Ref, AllocError>
        requires { AreBelow (length self.old) parts.now }
        ensures place { IfOk result (λ r. r ≡ length self.old) }
        ensures ok { OnOk result (self.new ≡ self.old ++ structured self.old parts.now ∷ []) }
        ensures err { OnErr result (self.new ≡ self.old) }
    {
        lay(&mut self.nodes, &mut self.parts, Compound::Structure, parts)
    }

    /// The node of a reference.
    pub fn look(&self, r: Ref) -> &PoolNode
        requires { r < length self.now }
        ensures value { slice_get (values self.now) r ≡ Some (value_in self.now result.now) }
        ensures parts { IsPlaced self.now r result.now }
    {
        &self.nodes[r as usize]
    }

    /// The references of a range.
    pub fn parts(&self, refs: Refs) -> &[Ref]
        requires { IsWithin self.now refs }
        ensures parts { result.now ≡ in_range (kept_parts self.now) refs }
        ensures below { AreBelow (length self.now) result.now }
    {
        part_of(&self.parts, refs)
    }

    pub fn mark(&self) -> Mark
        ensures { result ≡ mark_of self.now }
    {
        let nodes = self.nodes.len();
        let parts = self.parts.len();
        Mark {
            nodes: nodes as u32,
            parts: parts as u32,
        }
    }

    /// The nodes behind a mark are gone.
    pub fn release(&mut self, mark: Mark)
        requires { IsMarkIn mark self.old }
        ensures { self.new ≡ take mark.nodes self.old }
    {
        self.nodes.truncate(mark.nodes as usize);
        self.parts.truncate(mark.parts as usize);
    }
}
