// Expressions with what counts of them.
ghost use Rattle.std.specs.Prelude.{◌≡◌, ◌<◌, IfOk};
ghost use Rattle.cat_parse_expr.specs.Measures as spec;

use cat_pos::Boxed;
use cat_tree::{Node, Nodes, SurfaceArms, SurfaceFields};
use std::alloc::{AllocError, Global};

/// An expression, with what counts of it.
#[derive(Drop)]
pub struct Measured {
    pub node: Boxed<Node>,
    pub height: u32,
    /// Its level as a left operand: 0 where it ends in a form.
    pub strength: u32,
    pub in_match: bool,
}

/// The elements of a list or of a call, with the height of the highest.
#[derive(Drop)]
pub struct MeasuredNodes {
    pub nodes: Nodes,
    pub tallest: u32,
}

/// The fields of a structure or of a scope call, with the height of the highest value.
#[derive(Drop)]
pub struct MeasuredFields {
    pub values: SurfaceFields,
    pub tallest: u32,
}

/// The arms of a match, with the height of the highest body, and whether the last one ends in a match.
#[derive(Drop)]
pub struct MatchArms {
    pub arms: SurfaceArms,
    pub tallest: u32,
    pub in_match: bool,
}

/// An expression without parts.
pub(crate) fn leaf(alloc: Global, node: Node) -> Result<Measured, AllocError>
    ensures { IfOk result (λ made. made ≡ spec.leaf node) }
{
    Ok(Measured {
        node: Boxed::new(alloc, node)?,
        height: 1,
        strength: 9,
        in_match: false,
    })
}

/// One that ends in a word, or in a part that is no form.
pub(crate) fn closed(
    alloc: Global,
    level: u32,
    tallest: u32,
    node: Node,
) -> Result<Measured, AllocError>
    requires { tallest < 4294967295 }
    ensures { IfOk result (λ made. made ≡ spec.closed level tallest node) }
{
    Ok(Measured {
        node: Boxed::new(alloc, node)?,
        height: tallest + 1,
        strength: level,
        in_match: false,
    })
}

/// One that ends in a part of that strength.
pub(crate) fn ending(
    alloc: Global,
    level: u32,
    tallest: u32,
    strength: u32,
    in_match: bool,
    node: Node,
) -> Result<Measured, AllocError>
    requires { tallest < 4294967295 }
    ensures { IfOk result (λ made. made ≡ spec.ending level tallest strength in_match node) }
{
    Ok(Measured {
        node: Boxed::new(alloc, node)?,
        height: tallest + 1,
        strength: if strength == 0 { 0 } else { level },
        in_match,
    })
}

/// A form that ends in a part.
pub(crate) fn form(
    alloc: Global,
    tallest: u32,
    in_match: bool,
    node: Node,
) -> Result<Measured, AllocError>
    requires { tallest < 4294967295 }
    ensures { IfOk result (λ made. made ≡ spec.form tallest in_match node) }
{
    Ok(Measured {
        node: Boxed::new(alloc, node)?,
        height: tallest + 1,
        strength: 0,
        in_match,
    })
}
