//! From a tree to its program, or to a fault that stands against the tree.
#![tactic(auto)]

ghost use Rattle.std.specs.Prelude.{IfOk, IfErr};
ghost use Rattle.cat_names.specs.Accepted.{IsParsed, IsProgramOf, IsRefused};
ghost use Rattle.cat_check.specs.Cause.{Because};

mod arranging;
mod blocks;
mod body;
mod by_scope;
mod chains;
mod declared;
mod items;
mod meaning;
mod naming;
mod outline;
mod required;
mod rounds;
mod scope_order;
mod scopes;
mod tables;
mod words;

use crate::meaning::meaning_of;
pub use arranging::arranged;
use cat_declare::declared;
use cat_names::Refusal;
use cat_scope::Program;
use cat_tree::Tree;
pub use outline::{BlockOutline, Outline};
use std::alloc::Global;

/// The program of a tree. Its blocks are dropped as they are read, since together they would take as much memory as the
/// program. A tree without a program is refused by a fault of the first kind that stands in it: names and
/// counts, cycles of types, heights of declared types, placements and expressions, cycles of scopes, cycles of items,
/// chains of calls. It takes time in proportion to the tree, and n log n for orders.
pub fn check(alloc: Global, tree: Tree) -> Result<Program, Refusal>
    requires { IsParsed tree }
    ensures program { IfOk result (λ program.
        IsProgramOf tree program.decls program.bodies program.scope_order) }
    ensures cause { IfErr result (Because (IsRefused tree)) }
{
    let decls = declared(alloc, &tree)?;
    let outline = Outline::of(alloc, &tree)?;
    let bodies = meaning_of(alloc, tree, &decls)?;
    arranged(alloc, &outline, decls, bodies)
}
