// Names in blocks that name nothing, and the first definition past the most.
ghost use Rattle.std.specs.Prelude.{◌≡◌, ◌++◌, IfOk, OnOk, flat_map};
ghost use Rattle.cat_tree.specs.declared.program.Item.TheVariants.{Block as BlockItem};
ghost use Rattle.cat_names.specs.DeclarationFaults.{past};
ghost use Rattle.cat_names.specs.Limits.{most_definitions};
ghost use Rattle.cat_names.specs.NameFaults.{definition_position, definition_positions};
ghost use Rattle.cat_declare.specs.inside.Naming.{AreFew, AreItemTables, block_faults};
ghost use Rattle.cat_declare.specs.inside.Tabling.{tree_at};

use crate::tables::TreeTables;
use crate::written::ScopeDeclarations;
use cat_check_names::{Faults, NameTable, NamingContext, add_block, table_of};
use cat_names::{Fault, MOST_DEFINITIONS};
use cat_pos::{List, Positions};
use cat_tree::{Block, Item, Use};
use std::alloc::{AllocError, Global};

/// The variables of each scope, in tables.
pub fn item_tables(alloc: Global, scopes: &ScopeDeclarations) -> Result<List<NameTable>, AllocError>
    requires { AreFew scopes.now }
    ensures { IfOk result (AreItemTables scopes.now) }
{
    let mut tables = List::new(alloc);
    for scope in scopes.as_slice() {
        tables.push(table_of(alloc, scope.parts.as_slice())?)?;
    }
    Ok(tables)
}

/// What may be named in blocks.
#[derive(Drop)]
pub struct Scoped<'a> {
    pub alloc: Global,
    pub tables: &'a TreeTables<'a>,
    /// One for each scope.
    pub items: List<NameTable>,
}

impl<'a> Scoped<'a> {
    ghost use Rattle.cat_declare.specs.inside.Scoping.{AreScoped};

    /// A block.
    fn add_block(&self, block: &Block, faults: &mut Faults) -> Result<(), AllocError>
        requires { AreScoped self.now }
        ensures { OnOk result (faults.new
            ≡ faults.old ++ block_faults (tree_at self.now.tables.now).items (BlockItem block.now)) }
    {
        let tables = self.tables;
        let Some(number) = tables.scopes.number(&block.name.text) else {
            return faults.push(Fault::NameUnknown(block.name.pos));
        };
        let here = NamingContext {
            alloc: self.alloc,
            tree: tables.declarations.tree,
            variables: tables.declarations.scopes.at(number as usize).parts,
            types: &tables.types,
            scopes: &tables.scopes,
            items: self.items.at(number as usize),
        };
        let added = add_block(&here, block, faults);
        let NamingContext {
            alloc: _,
            tree: _,
            variables: _,
            types: _,
            scopes: _,
            items: _,
        } = here;
        added
    }

    /// The blocks among the items of a tree.
    pub fn add_blocks(&self, items: &[Item], faults: &mut Faults) -> Result<(), AllocError>
        requires { AreScoped self.now }
        ensures { OnOk result (faults.new
            ≡ faults.old ++ flat_map (block_faults (tree_at self.now.tables.now).items) items.now) }
    {
        for item in items {
            let Item::Block(block) = item else {
                continue;
            };
            self.add_block(block, faults)?;
        }
        Ok(())
    }
}

/// The positions of definitions and rules.
fn add_positions(lines: &[Use], positions: &mut Positions) -> Result<(), AllocError>
    ensures { OnOk result (positions.new ≡ positions.old ++ flat_map definition_position lines.now) }
{
    for line in lines {
        let (Use::Definition(_, pos, ..) | Use::Rule(_, pos, ..)) = line else {
            continue;
        };
        positions.push(*pos)?;
    }
    Ok(())
}

fn positions_of(alloc: Global, items: &[Item]) -> Result<Positions, AllocError>
    ensures { IfOk result (λ positions. positions ≡ flat_map definition_positions items.now) }
{
    let mut positions = List::new(alloc);
    for item in items {
        let Item::Block(block) = item else {
            continue;
        };
        add_positions(block.uses.as_slice(), &mut positions)?;
    }
    Ok(positions)
}

/// The first definition or rule past the most.
pub fn add_past_definitions(
    alloc: Global,
    items: &[Item],
    faults: &mut Faults,
) -> Result<(), AllocError>
    ensures { OnOk result (faults.new ≡ faults.old ++ past most_definitions (flat_map definition_positions items.now)) }
{
    let positions = positions_of(alloc, items)?;
    match positions.get(MOST_DEFINITIONS) {
        Some(pos) => faults.push(Fault::TooMany(*pos)),
        None => Ok(()),
    }
}
