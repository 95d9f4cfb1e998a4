// The walk as a whole.
ghost use Rattle.std.specs.Prelude.{◌≡◌, OnOk};
ghost use Rattle.std.specs.Option.{option_copied};
ghost use Rattle.cat_names.specs.Found.{Tells};
ghost use Rattle.cat_names.specs.Meaning.{meant};
ghost use Rattle.cat_check_forms.specs.Tabled.{IsTabled, names_at};

use crate::walk::resolve;
use cat_check_forms::Here;
use cat_names::{Locals, Refusal, Typed};
use cat_tree::Node;
use cat_value::Ty;

/// What an expression means under bound names, where a type is expected or not. Calls nest in proportion to the
/// expression's height, and each part of it is looked at once.
pub fn inferred(
    here: &Here,
    node: &Node,
    locals: &mut Locals,
    expected: Option<&Ty>,
) -> Result<Typed, Refusal>
    requires { IsTabled here.now }
    ensures told { Tells result (meant (names_at here.now) node.now locals.old (option_copied expected.entry)) }
    ensures kept { OnOk result (locals.new ≡ locals.old) }
{
    let found = resolve(here, node, locals, expected)?;
    Ok(found.into_typed())
}
