// A value comes into a pool.
ghost use Rattle.std.specs.Prelude.{◌≡◌, ◌+◌, length, slice_get, Some, IfOk, IfSome, OnOk, OnErr};
ghost use Rattle.cat_value.specs.declared.value.Value.TheViews as value;
ghost use Rattle.cat_pool.specs.Nodes.{AreBelow, IsPlain, seen_at, value_in, values};
ghost use Rattle.cat_pool.specs.Loading.{Extends, node_count, node_counts};
ghost use Rattle.cat_pool.specs.inside.Alone.{IsAlone};

use crate::node::{PoolNode, Ref, References};
use crate::pool::Pool;
use cat_pos::List;
use cat_value::{Value, Values};
use std::alloc::{AllocError, Global};

/// A node without parts, or a case.
#[tactic(auto, using(crate::proofs::LoadingLemmas::puts))]
fn put_node(pool: &mut Pool, node: PoolNode) -> Result<Ref, AllocError>
    requires { IsPlain pool.old node }
    ensures value { IfOk result (λ r. slice_get (values pool.new) r ≡ Some (value_in pool.old node)) }
    ensures count { OnOk result (length pool.new ≡ length pool.old + 1) }
    ensures kept { Extends pool.old pool.new }
    ensures err { OnErr result (pool.new ≡ pool.old) }
{
    let r = pool.put(node)?;
    Ok(r)
}

/// A value that has no parts, as a node.
#[tactic(auto, using(crate::proofs::Alone::alone))]
fn alone(value: &Value) -> Option<PoolNode>
    ensures { IfSome result (IsAlone value.now) }
{
    match value {
        Value::Boolean(truth) => Some(PoolNode::Boolean(*truth)),
        Value::Integer(whole) => Some(PoolNode::Integer(*whole)),
        Value::Decimal(frac) => Some(PoolNode::Decimal(*frac)),
        Value::Money(money) => Some(PoolNode::Money(*money)),
        Value::Date(day) => Some(PoolNode::Date(*day)),
        Value::Duration(span) => Some(PoolNode::Duration(*span)),
        Value::List(_) => None,
        Value::Structure(_) => None,
        Value::Case(_, _) => None,
    }
}

/// A list of these elements.
#[tactic(auto, using(crate::proofs::LoadingLemmas::puts))]
fn put_elements(pool: &mut Pool, parts: &[Ref]) -> Result<Ref, AllocError>
    requires { AreBelow (length pool.old) parts.now }
    ensures value { IfOk result (λ r. slice_get (values pool.new) r ≡ Some (value.List (seen_at pool.old parts.now))) }
    ensures count { OnOk result (length pool.new ≡ length pool.old + 1) }
    ensures kept { Extends pool.old pool.new }
{
    let r = pool.put_list(parts)?;
    Ok(r)
}

/// A structure of these fields.
#[tactic(auto, using(crate::proofs::LoadingLemmas::puts))]
fn put_fields(pool: &mut Pool, parts: &[Ref]) -> Result<Ref, AllocError>
    requires { AreBelow (length pool.old) parts.now }
    ensures value { IfOk result (λ r. slice_get (values pool.new) r
        ≡ Some (value.Structure (seen_at pool.old parts.now))) }
    ensures count { OnOk result (length pool.new ≡ length pool.old + 1) }
    ensures kept { Extends pool.old pool.new }
{
    let r = pool.put_structure(parts)?;
    Ok(r)
}

/// The nodes of a value behind those of the pool, the value's own the last.
#[cycle(loading)]
#[tactic(auto, using(crate::proofs::LoadingLemmas::loads))]
fn load_behind(alloc: Global, pool: &mut Pool, value: &Value) -> Result<Ref, AllocError>
    ensures value { IfOk result (λ r. slice_get (values pool.new) r ≡ Some value.now) }
    ensures count { OnOk result (length pool.new ≡ length pool.old + node_count value.now) }
    ensures kept { Extends pool.old pool.new }
{
    match value {
        Value::Boolean(truth) => put_node(pool, PoolNode::Boolean(*truth)),
        Value::Integer(whole) => put_node(pool, PoolNode::Integer(*whole)),
        Value::Decimal(frac) => put_node(pool, PoolNode::Decimal(*frac)),
        Value::Money(money) => put_node(pool, PoolNode::Money(*money)),
        Value::Date(day) => put_node(pool, PoolNode::Date(*day)),
        Value::Duration(span) => put_node(pool, PoolNode::Duration(*span)),
        Value::List(elements) => {
            let parts = load_all(alloc, pool, elements)?;
            put_elements(pool, parts.as_slice())
        }
        Value::Structure(fields) => {
            let parts = load_all(alloc, pool, fields)?;
            put_fields(pool, parts.as_slice())
        }
        Value::Case(case, content) => match content {
            None => put_node(pool, PoolNode::Case(*case, None)),
            Some(content) => {
                let content = load_behind(alloc, pool, content.get())?;
                put_node(pool, PoolNode::Case(*case, Some(content)))
            }
        },
    }
}

#[cycle(loading)]
fn load_all(alloc: Global, pool: &mut Pool, values: &Values) -> Result<References, AllocError>
    ensures values { IfOk result (λ parts. seen_at pool.new parts ≡ values.now) }
    ensures below { IfOk result (λ parts. AreBelow (length pool.new) parts) }
    ensures count { OnOk result (length pool.new ≡ length pool.old + node_counts values.now) }
    ensures kept { Extends pool.old pool.new }
{
    let mut parts = List::new(alloc);
    for value in values.as_slice() {
        parts.push(load_behind(alloc, pool, value)?)?;
    }
    Ok(parts)
}

impl Pool {
    /// The nodes of a value: one for itself, and those of each of its parts.
    #[tactic(auto, using(crate::proofs::Alone::loading))]
    pub fn load(&mut self, alloc: Global, value: &Value) -> Result<Ref, AllocError>
        ensures value { IfOk result (λ r. slice_get (values self.new) r ≡ Some value.now) }
        ensures count { OnOk result (length self.new ≡ length self.old + node_count value.now) }
        ensures kept { Extends self.old self.new }
        ensures err { OnErr result (self.new ≡ self.old) }
    {
        if let Some(node) = alone(value) {
            let r = put_node(self, node)?;
            return Ok(r);
        }
        let mark = self.mark();
        match load_behind(alloc, self, value) {
            Ok(r) => Ok(r),
            Err(_) => {
                self.release(mark);
                Err(AllocError)
            }
        }
    }
}
