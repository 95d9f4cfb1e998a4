// Scopes behind those that they call.
ghost use Rattle.std.specs.Prelude.{◌≡◌, ◌<◌, ◌++◌, length, flat_map, IfOk, IfErr, OnOk};
ghost use Rattle.cat_order.specs.Order.{IsOrder};
ghost use Rattle.cat_tree.specs.declared.program.Tree.{Tree};
ghost use Rattle.cat_scope.specs.Orders.{scope_dependencies};
ghost use Rattle.cat_names.specs.Accepted.{IsMeant};
ghost use Rattle.cat_names.specs.Cycles.{IsScopeCycle};
ghost use Rattle.cat_check.specs.Cause.{Because};
ghost use Rattle.cat_check.specs.Outlined.{IsMeantIn, outline_of};
ghost use Rattle.cat_check.specs.inside.Calling.{called_about, of_word};
ghost use Rattle.cat_check.specs.inside.Calls.{IsCall, IsCallAt};
ghost use Rattle.cat_check.specs.inside.Outlining.{IsCallIn};

use crate::declared::add_declared;
use crate::naming::is_for;
use crate::{BlockOutline, Outline};
use cat_check_names::{NameTable, table_of};
use cat_depend::{CallRefusal, scope_order};
use cat_names::{Fault, Refusal};
use cat_pos::{List, Numbers, Pos, Positions};
use cat_scope::Bodies;
use cat_tree::Name;
use cat_value::{Decls, declarations_are_sound};
use std::alloc::{AllocError, Global};

/// Adds where words name the scope of that number.
fn add_named(
    table: &NameTable,
    called: u32,
    words: &[Name],
    positions: &mut Positions,
) -> Result<(), AllocError>
    ensures { OnOk result (positions.new ≡ positions.old ++ flat_map (of_word table.now called) words.now) }
{
    for word in words {
        if !is_for(table, called, word) {
            continue;
        }
        positions.push(word.pos)?;
    }
    Ok(())
}

/// Adds where the blocks of a scope call another.
fn add_called(
    table: &NameTable,
    caller: u32,
    called: u32,
    blocks: &[BlockOutline],
    positions: &mut Positions,
) -> Result<(), AllocError>
    ensures { OnOk result (positions.new
        ≡ positions.old ++ flat_map (called_about table.now caller called) blocks.now) }
{
    for block in blocks {
        if !is_for(table, caller, &block.scope) {
            continue;
        }
        add_named(table, called, block.words.as_slice(), positions)?;
    }
    Ok(())
}

/// Where a scope calls another.
fn call_position(
    alloc: Global,
    outline: &Outline,
    decls: &Decls,
    caller: u32,
    called: u32,
) -> Result<Pos, AllocError>
    requires caller { caller < length decls.now.scopes }
    requires call { IsCallIn outline.now decls.now caller called }
    ensures { IfOk result (λ pos. (tree : Tree) → outline.now ≡ outline_of tree
        → IsCallAt tree decls.now caller called pos) }
{
    declarations_are_sound(decls);
    let table = table_of(alloc, decls.scopes.as_slice())?;
    let items = decls.scopes.at(caller as usize).items.as_slice();
    let mut positions = List::new(alloc);
    add_declared(items, called, &mut positions)?;
    let blocks = outline.blocks.as_slice();
    add_called(&table, caller, called, blocks, &mut positions)?;
    Ok(*positions.at(0))
}

/// The order of scopes, or where one calls another that leads back to it.
pub fn scopes_in_order(
    alloc: Global,
    outline: &Outline,
    decls: &Decls,
    bodies: &Bodies,
) -> Result<Numbers, Refusal>
    requires { IsMeantIn outline.now decls.now bodies.now }
    ensures order { IfOk result (IsOrder (scope_dependencies decls.now.scopes bodies.now)) }
    ensures cause { IfErr result (λ refusal. (tree : Tree) → outline.now ≡ outline_of tree
        → IsMeant tree decls.now bodies.now → Because (IsScopeCycle tree decls.now bodies.now) refusal) }
{
    declarations_are_sound(decls);
    match scope_order(alloc, bodies.as_slice()) {
        Ok(order) => Ok(order),
        Err(CallRefusal::Memory) => Err(Refusal::Memory),
        Err(CallRefusal::Cycle(caller, called)) => {
            let pos = call_position(alloc, outline, decls, caller, called)?;
            Err(Refusal::Refused(Fault::ScopeCycle(pos)))
        }
    }
}
