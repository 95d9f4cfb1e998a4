// The paths of the parts of an input.
ghost use Rattle.std.specs.Prelude.{◌≡◌, ◌∷◌, ◌++◌, [], IfOk};
ghost use Rattle.cat_audit_sound.specs.PointInputs.{field_of};

use cat_guard::InputPath;
use cat_pos::List;
use std::alloc::{AllocError, Global};

/// The path of a field of the part at a path.
pub fn field_of(alloc: Global, path: &InputPath, field: u32) -> Result<InputPath, AllocError>
    ensures { IfOk result (λ inner. inner ≡ field_of path.now field) }
{
    let mut fields = List::from_slice(alloc, path.fields.as_slice())?;
    fields.push(field)?;
    Ok(InputPath {
        item: path.item,
        fields,
    })
}
