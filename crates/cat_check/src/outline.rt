// What is kept of a tree once its blocks are read: where its scopes are named.
ghost use Rattle.std.specs.Prelude.{◌≡◌, ◌++◌, IfOk, OnOk, flat_map};
ghost use Rattle.cat_names.specs.Written.{names_of, positions, scopes_in};
ghost use Rattle.cat_check.specs.Outlined.{block_outline, item_outline, outline_of};

use crate::blocks::add_block;
use cat_pos::{List, Positions};
use cat_tree::{Block, Item, Name, Names, Tree};
use std::alloc::{AllocError, Global};

/// A block: the name of its scope, and the names of the scopes that it calls, in source order.
#[derive(Debug, Drop)]
pub struct BlockOutline {
    pub scope: Name,
    pub words: Names,
}

/// What is kept of a tree once its blocks are read, to tell where scopes call each other.
#[derive(Debug, Drop)]
pub struct Outline {
    /// Where the names of scopes stand in their declarations.
    pub scopes: Positions,
    pub blocks: List<BlockOutline>,
}

/// Where the names of scopes stand in their declarations.
fn scope_positions(alloc: Global, items: &[Item]) -> Result<Positions, AllocError>
    ensures { IfOk result (λ found. found ≡ positions (names_of (scopes_in items.now))) }
{
    let mut found = List::new(alloc);
    for item in items {
        let Item::Scope(_, name, _) = item else {
            continue;
        };
        found.push(name.pos)?;
    }
    Ok(found)
}

fn block_outline(alloc: Global, block: &Block) -> Result<BlockOutline, AllocError>
    ensures { IfOk result (λ outline. outline ≡ block_outline block.now) }
{
    let mut words = List::new(alloc);
    add_block(block, &mut words)?;
    let scope = block.name.copy()?;
    Ok(BlockOutline { scope, words })
}

fn block_outlines(alloc: Global, items: &[Item]) -> Result<List<BlockOutline>, AllocError>
    ensures { IfOk result (λ blocks. blocks ≡ flat_map item_outline items.now) }
{
    let mut blocks = List::new(alloc);
    for item in items {
        let Item::Block(block) = item else {
            continue;
        };
        blocks.push(block_outline(alloc, block)?)?;
    }
    Ok(blocks)
}

impl Outline {
    /// The outline of a tree. It takes time in proportion to the tree.
    pub fn of(alloc: Global, tree: &Tree) -> Result<Outline, AllocError>
        ensures { IfOk result (λ outline. outline ≡ outline_of tree.now) }
    {
        let items = tree.items.as_slice();
        Ok(Outline {
            scopes: scope_positions(alloc, items)?,
            blocks: block_outlines(alloc, items)?,
        })
    }
}
