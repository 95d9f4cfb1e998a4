// Outputs of scopes.
ghost use Rattle.std.specs.Prelude.{◌≡◌, slice_get};
ghost use Rattle.std.specs.Option.{option_copied};
ghost use Rattle.cat_scope.specs.Names.{output_at};
ghost use Rattle.cat_lower.specs.Types.{called_output as of_called, scope_called};

use crate::LoweringScene;
use crate::scene::tables_are_made;
use cat_value::{ItemDecl, Kind};

/// An output of a scope.
pub fn output_of<'a>(here: &LoweringScene<'a>, scope: u32, number: u32) -> Option<&'a ItemDecl>
    ensures { option_copied result ≡ output_at here.now.decls.now scope number }
{
    tables_are_made(here);
    let declared = here.decls.scopes.get(scope as usize)?;
    let outputs = here.outputs.get(scope as usize)?;
    let item = outputs.get(number as usize)?;
    declared.items.get(*item as usize)
}

/// An output of the scope that an item calls.
pub fn called_output<'a>(here: &LoweringScene<'a>, item: u32, number: u32) -> Option<&'a ItemDecl>
    ensures { option_copied result
        ≡ of_called here.now.decls.now number (scope_called (slice_get here.now.items.now item)) }
{
    match here.items.get(item as usize) {
        Some(
            ItemDecl {
                kind: Kind::Called(scope),
                ..
            },
        ) => output_of(here, *scope, number),
        _ => None,
    }
}
