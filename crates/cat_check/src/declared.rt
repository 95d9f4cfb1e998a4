// Where declarations call a scope.
ghost use Rattle.std.specs.Prelude.{◌≡◌, ◌++◌, OnOk, flat_map};
ghost use Rattle.cat_check.specs.inside.Calling.{called_by_item, declared_at};

use cat_pos::Positions;
use cat_value::{ItemDecl, Kind};
use std::alloc::AllocError;

fn calls(kind: Kind, scope: u32) -> bool
    ensures { result ≡ called_by_item kind scope }
{
    match kind {
        Kind::Called(called) => called == scope,
        _ => false,
    }
}

/// Adds where the declaration of a scope calls another.
pub fn add_declared(
    items: &[ItemDecl],
    called: u32,
    positions: &mut Positions,
) -> Result<(), AllocError>
    ensures { OnOk result (positions.new ≡ positions.old ++ flat_map (declared_at called) items.now) }
{
    for item in items {
        if !calls(item.kind, called) {
            continue;
        }
        positions.push(item.pos)?;
    }
    Ok(())
}
