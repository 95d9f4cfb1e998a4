// Bound names that are taken off.
ghost use Rattle.std.specs.Prelude.{◌≡◌, ◌-◌, length, take};

use cat_names::Locals;

/// Takes off the innermost name.
pub fn unbind(locals: &mut Locals)
    ensures { locals.new ≡ take (length locals.old - 1) locals.old }
{
    locals.pop();
}
