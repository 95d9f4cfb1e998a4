// The guards of definitions.
ghost use Rattle.std.specs.Prelude.{◌≡◌, ◌<◌, All, IfOk, Some, length, slice_get};
ghost use Rattle.cat_scope.specs.declared.defs.Def.{Def as Definition};
ghost use Rattle.cat_except.specs.inside.Grouping.{defs_at};
ghost use Rattle.cat_audit_table.specs.inside.Added.{AddsDef, AddsDefs};

use crate::scene::TabledScope;
use crate::{ConditionContext, Numbering, condition_guard};
use cat_audit_keys::Place;
use cat_guard::{GuardDef, GuardDefs};
use cat_pos::List;
use std::alloc::AllocError;

/// The definition of that number.
fn guard_def(
    scene: &TabledScope,
    numbering: &mut Numbering,
    number: u32,
) -> Result<GuardDef, AllocError>
    requires { number < length scene.now.defs.now }
    ensures { IfOk result (λ made. (d : Definition) → slice_get scene.now.defs.now number ≡ Some d
        → AddsDef scene.now (number, d) numbering.old numbering.new made) }
{
    let def = &scene.defs[number as usize];
    let here = ConditionContext {
        alloc: scene.alloc,
        decls: scene.decls,
        items: scene.items,
        place: Place {
            function: def.target.item,
            params: def.params,
        },
    };
    let guard = condition_guard(&here, numbering, &def.condition)?;
    Ok(GuardDef {
        number,
        guard,
        pos: def.pos,
    })
}

/// The definitions of these numbers.
pub fn guard_defs(
    scene: &TabledScope,
    numbering: &mut Numbering,
    numbers: &[u32],
) -> Result<GuardDefs, AllocError>
    requires { All (λ n. n < length scene.now.defs.now) numbers.now }
    ensures { IfOk result (AddsDefs scene.now (defs_at scene.now.defs.now numbers.now) numbering.old numbering.new) }
{
    let mut made = List::new(scene.alloc);
    for &number in numbers {
        made.push(guard_def(scene, numbering, number)?)?;
    }
    Ok(made)
}
