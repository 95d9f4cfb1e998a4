//! Trees as short texts. A node stands in parentheses with its own words, its position, and then its parts; a name is
//! `(a)`. Positions are written `@` and the column, where they are wanted.

use crate::front::{front, write_name, write_pattern};
use crate::writer::{WriteResult, Writer};
use cat_pos::Boxed;
use cat_tree::{Node, Nodes, SurfaceArms, SurfaceFields};
use std::alloc::{AllocError, Global};

/// The tree as a text.
pub fn show(alloc: Global, has_positions: bool, node: &Node) -> Result<String, AllocError> {
    let mut out = Writer::new(alloc, has_positions);
    write(&mut out, node)?;
    out.mark(")")?;
    Ok(out.into_text())
}

/// The node, but for the parenthesis that closes it.
#[cycle(write)]
fn write(out: &mut Writer, node: &Node) -> WriteResult {
    front(out, node)?;
    match node {
        Node::Literal(_, _) | Node::Name(_) | Node::Case(_) => Ok(()),
        Node::Parens(_, part)
        | Node::Field(part, _)
        | Node::Prefixed(_, _, part)
        | Node::Sum(_, _, part)
        | Node::Content(_, part)
        | Node::Test(part, _, _) => write_part(out, part),
        Node::Binary(_, _, one, two) | Node::Each(_, _, _, one, two) => {
            write_part(out, one)?;
            write_part(out, two)
        }
        Node::If(_, one, two, three) | Node::Combine(_, one, two, three) => {
            write_part(out, one)?;
            write_part(out, two)?;
            write_part(out, three)
        }
        Node::Call(_, parts) | Node::List(_, parts) => write_nodes(out, parts),
        Node::Structure(_, fields) => write_fields(out, fields),
        Node::ScopeCall(_, _, fields, _) => write_fields(out, fields.get()),
        Node::Match(_, part, arms) => {
            write_part(out, part)?;
            write_arms(out, arms.get())
        }
    }
}

#[cycle(write)]
fn write_part(out: &mut Writer, part: &Boxed<Node>) -> WriteResult {
    write(out, part.get())?;
    out.mark(")")
}

#[cycle(write)]
fn write_nodes(out: &mut Writer, nodes: &Nodes) -> WriteResult {
    out.word("[")?;
    for node in nodes.as_slice() {
        write(out, node)?;
        out.mark(")")?;
    }
    out.mark("]")
}

#[cycle(write)]
fn write_fields(out: &mut Writer, fields: &SurfaceFields) -> WriteResult {
    out.word("[")?;
    for field in fields.as_slice() {
        write_name(out, &field.name)?;
        out.mark(":")?;
        write(out, &field.value)?;
        out.mark(")")?;
    }
    out.mark("]")
}

#[cycle(write)]
fn write_arms(out: &mut Writer, arms: &SurfaceArms) -> WriteResult {
    out.word("[")?;
    for arm in arms.as_slice() {
        write_pattern(out, &arm.pattern)?;
        out.mark(":")?;
        write(out, &arm.body)?;
        out.mark(")")?;
    }
    out.mark("]")
}
