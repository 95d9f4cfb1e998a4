// A value comes out of a pool.
ghost use Rattle.std.specs.Prelude.{◌≡◌, ◌<◌, ◌+◌, ◌-◌, length, nat_le, slice_get, Some, IfOk};
ghost use Rattle.cat_pool.specs.Nodes.{AreBelow, at, seen_at, values};
ghost use Rattle.cat_pool.specs.Loading.{node_count, node_counts};

use crate::node::{PoolNode, Ref};
use crate::pool::Pool;
use cat_pos::{Boxed, List};
use cat_value::{Value, Values};
use std::alloc::{AllocError, Global};

/// The value of a node in memory of its own.
#[cycle(unloading)]
#[tactic(auto, using(crate::proofs::LoadingLemmas::reads))]
fn unload_node(alloc: Global, pool: &Pool, r: Ref) -> Result<Value, AllocError>
    requires { r < length pool.now }
    ensures { IfOk result (λ value. slice_get (values pool.now) r ≡ Some value) }
{
    match pool.look(r) {
        PoolNode::Boolean(truth) => Ok(Value::Boolean(*truth)),
        PoolNode::Integer(whole) => Ok(Value::Integer(*whole)),
        PoolNode::Decimal(frac) => Ok(Value::Decimal(*frac)),
        PoolNode::Money(money) => Ok(Value::Money(*money)),
        PoolNode::Date(day) => Ok(Value::Date(*day)),
        PoolNode::Duration(span) => Ok(Value::Duration(*span)),
        PoolNode::List(refs) => {
            let elements = unload_all(alloc, pool, r, pool.parts(*refs))?;
            Ok(Value::List(elements))
        }
        PoolNode::Structure(refs) => {
            let fields = unload_all(alloc, pool, r, pool.parts(*refs))?;
            Ok(Value::Structure(fields))
        }
        PoolNode::Case(case, content) => match content {
            None => Ok(Value::Case(*case, None)),
            Some(content) => {
                let content = unload_node(alloc, pool, *content)?;
                let content = Boxed::new(alloc, content)?;
                Ok(Value::Case(*case, Some(content)))
            }
        },
    }
}

/// The values of the parts of a node.
#[cycle(unloading)]
fn unload_all(alloc: Global, pool: &Pool, of: Ref, parts: &[Ref]) -> Result<Values, AllocError>
    requires of { of < length pool.now }
    requires parts { AreBelow of parts.now }
    ensures { IfOk result (λ values. values ≡ seen_at pool.now parts.now) }
{
    let mut values = List::new(alloc);
    for part in parts {
        values.push(unload_node(alloc, pool, *part)?)?;
    }
    Ok(values)
}

/// What is left of a number behind the nodes of a value; nothing where it has more. A node that a value has several
/// times counts as often.
#[cycle(counting)]
#[tactic(auto, using(crate::proofs::LoadingLemmas::lefts))]
fn left_by(pool: &Pool, r: Ref, left: u32) -> u32
    requires { r < length pool.now }
    ensures { result ≡ left - node_count (at (values pool.now) r) }
{
    if left == 0 {
        return 0;
    }
    let below = left - 1;
    match pool.look(r) {
        PoolNode::Boolean(_) => below,
        PoolNode::Integer(_) => below,
        PoolNode::Decimal(_) => below,
        PoolNode::Money(_) => below,
        PoolNode::Date(_) => below,
        PoolNode::Duration(_) => below,
        PoolNode::List(refs) => left_by_all(pool, r, pool.parts(*refs), below),
        PoolNode::Structure(refs) => left_by_all(pool, r, pool.parts(*refs), below),
        PoolNode::Case(_, content) => match content {
            None => below,
            Some(content) => left_by(pool, *content, below),
        },
    }
}

#[cycle(counting)]
#[tactic(auto, using(crate::proofs::LoadingLemmas::lefts))]
fn left_by_all(pool: &Pool, of: Ref, parts: &[Ref], left: u32) -> u32
    requires of { of < length pool.now }
    requires parts { AreBelow of parts.now }
    ensures { result ≡ left - node_counts (seen_at pool.now parts.now) }
{
    let mut left = left;
    for part in parts {
        if left == 0 {
            return 0;
        }
        left = left_by(pool, *part, left);
    }
    left
}

impl Pool {
    /// The value of a node in memory of its own.
    pub fn unload(&self, alloc: Global, r: Ref) -> Result<Value, AllocError>
        requires { r < length self.now }
        ensures { IfOk result (λ value. slice_get (values self.now) r ≡ Some value) }
    {
        unload_node(alloc, self, r)
    }

    /// Whether a value has at most so many nodes, one that it has several times counted as often. It takes a step a
    /// node, and no more than so many.
    pub fn is_small(&self, r: Ref, most: u32) -> bool
        requires within { r < length self.now }
        requires most { most + 1 < 4294967296 }
        ensures { result ≡ nat_le (node_count (at (values self.now) r)) most }
    {
        left_by(self, r, most + 1) > 0
    }
}
