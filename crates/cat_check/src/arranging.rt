// The orders of a program, and the chains that are too long.
ghost use Rattle.std.specs.Prelude.{◌≡◌, IfOk, IfErr};
ghost use Rattle.cat_tree.specs.declared.program.Tree.{Tree};
ghost use Rattle.cat_names.specs.Accepted.{IsMeant, IsProgramOf, IsRefused};
ghost use Rattle.cat_check.specs.Cause.{Because};
ghost use Rattle.cat_check.specs.Outlined.{IsMeantIn, outline_of};

use crate::chains::{refuse_long_calls, refuse_long_functions};
use crate::items::items_in_order;
use crate::outline::Outline;
use crate::scope_order::scopes_in_order;
use cat_names::{Refusal, programs_of_trees_are_well_formed};
use cat_order::a_cycle_leaves_no_order;
use cat_pos::Shared;
use cat_scope::{Bodies, Program};
use cat_value::{Decls, declarations_are_sound};
use std::alloc::Global;

/// The program of a tree, from its outline and from what it means: the orders that the bodies come with are not read.
/// A scope on a cycle is refused before an item on one, and both before a chain of calls that is too long. It takes
/// time in proportion to the bodies and the outline, and n log n for orders.
pub fn arranged(
    alloc: Global,
    outline: &Outline,
    decls: Decls,
    bodies: Bodies,
) -> Result<Program, Refusal>
    requires { IsMeantIn outline.now decls bodies }
    ensures decls { IfOk result (λ program. program.decls ≡ decls) }
    ensures program { IfOk result (λ program. (tree : Tree) → outline.now ≡ outline_of tree
        → IsMeant tree decls bodies → IsProgramOf tree decls program.bodies program.scope_order) }
    ensures cause { IfErr result (λ refusal. (tree : Tree) → outline.now ≡ outline_of tree
        → IsMeant tree decls bodies → Because (IsRefused tree) refusal) }
{
    declarations_are_sound(&decls);
    programs_of_trees_are_well_formed(&decls);
    a_cycle_leaves_no_order();
    let scope_order = scopes_in_order(alloc, outline, &decls, &bodies)?;
    let bodies = items_in_order(alloc, &decls, bodies)?;
    refuse_long_functions(alloc, &decls, &bodies)?;
    refuse_long_calls(alloc, outline, &decls, &bodies, &scope_order)?;
    let shared = Shared::new(alloc, decls)?;
    Ok(Program::from_parts(shared, bodies, scope_order))
}
