//! What a tree declares, with its types resolved; or what stands against its names, its counts and its types.
#![tactic(auto)]

ghost use Rattle.std.specs.Prelude.{IfOk, IfErr};
ghost use Rattle.cat_names.specs.Accepted.{IsNamed, IsParsed, parts_of};
ghost use Rattle.cat_declare.specs.Cause.{HasCause};

mod blocks;
mod build;
mod counts;
mod cycles;
mod heights;
mod named;
mod reply;
mod tables;
mod types;
mod written;

use crate::build::Parts;
use crate::cycles::refuse_cycles;
use crate::heights::refuse_high;
use crate::named::{refuse_repeated, resolved};
use crate::tables::TreeTables;
use crate::written::Declarations;
use cat_names::Refusal;
use cat_tree::Tree;
use cat_value::Decls;
use std::alloc::Global;

/// What a tree declares, where none of its names, counts and declared types is at fault. It takes time in proportion to
/// the tree, and n log n for the order of types.
pub fn declared(alloc: Global, tree: &Tree) -> Result<Decls, Refusal>
    requires { IsParsed tree.now }
    ensures named { IfOk result (λ decls. IsNamed tree.now (parts_of decls)) }
    ensures cause { IfErr result (HasCause tree.now) }
{
    refuse_repeated(alloc, tree)?;
    let declarations = Declarations::of(alloc, tree)?;
    let tables = TreeTables::of(alloc, declarations)?;
    let parts = resolved(alloc, &tables)?;
    refuse_cycles(alloc, &tables, &parts)?;
    refuse_high(alloc, &tables, &parts)?;
    let Parts {
        structures,
        enumerations,
        scopes,
    } = parts;
    Ok(Decls::from_parts(structures, enumerations, scopes))
}
