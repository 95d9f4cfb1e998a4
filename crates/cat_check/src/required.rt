// The inputs that a call of a scope must give.
ghost use Rattle.std.specs.Prelude.{◌≡◌, ◌&&◌, ◌<◌, not, IfOk, length, map};
ghost use Rattle.cat_pos.specs.declared.limits.TheConstants.{ENTRIES_BOUND};
ghost use Rattle.cat_value.specs.Inputs.{must_be_given};
ghost use Rattle.cat_check_forms.specs.Tabled.{required_from};

use cat_pos::{List, Numbers};
use cat_value::{Decls, ItemDecl, declarations_are_sound};
use std::alloc::{AllocError, Global};

fn is_required(item: &ItemDecl) -> bool
    ensures { result ≡ (must_be_given item.now.kind && not item.now.condition) }
{
    item.kind.must_be_given() && !item.condition
}

/// The numbers of the inputs that a call of their scope must give.
fn required(alloc: Global, items: &[ItemDecl]) -> Result<Numbers, AllocError>
    requires { length items.now < ENTRIES_BOUND }
    ensures { IfOk result (λ numbers. numbers ≡ required_from 0 items.now) }
{
    let mut numbers = List::new(alloc);
    for (number, item) in items.iter().enumerate() {
        if !is_required(item) {
            continue;
        }
        numbers.push(number as u32)?;
    }
    Ok(numbers)
}

/// The inputs that a call must give, for each scope. It takes time in proportion to the items of scopes.
pub fn required_inputs(alloc: Global, decls: &Decls) -> Result<List<Numbers>, AllocError>
    ensures { IfOk result (λ inputs. inputs ≡ map (λ s. required_from 0 s.items) decls.now.scopes) }
{
    declarations_are_sound(decls);
    let mut inputs = List::new(alloc);
    for scope in decls.scopes.as_slice() {
        inputs.push(required(alloc, scope.items.as_slice())?)?;
    }
    Ok(inputs)
}
