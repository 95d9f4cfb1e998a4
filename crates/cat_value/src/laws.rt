// Laws of the words: each is the contract of a function.
ghost use Rattle.std.specs.Prelude.{◌≡◌, ◌+◌, ◌≤◌, IsTrue};
ghost use Rattle.cat_value.specs.declared.ty.Ty.TheViews.{out-Ty};
ghost use Rattle.cat_value.specs.Declarations.{highest};
ghost use Rattle.cat_value.specs.Typing.{has_type, is_type};
ghost use Rattle.cat_value.specs.Defaults.{default_of};
ghost use Rattle.cat_value.specs.Laws.{height_of, part_height, value_height, AreSound};

use crate::{Decls, Ty, Value};
use cat_order::{a_cycle_leaves_no_order, the_order_is_computed};

/// The default of a type is one of its values.
#[tactic(auto, using(crate::proofs::DefaultsTyped::default_of_typed))]
pub fn defaults_are_well_typed(ty: &Ty, decls: &Decls)
    requires { IsTrue (is_type decls.now ty.now) }
    ensures { IsTrue (has_type decls.now (default_of decls.now ty.now) ty.now) }
{}

/// The height of a type is one more than that of its highest part: 1 where it has none.
#[tactic(auto, using(crate::proofs::HeightLaws::height_of_is))]
pub fn heights_are_one_above_their_parts(ty: &Ty, decls: &Decls)
    requires { height_of decls.now ty.now ≤ highest }
    ensures { height_of decls.now ty.now ≡ 1 + part_height decls.now (out-Ty ty.now) }
{}

/// No value is higher than its type.
#[tactic(auto, using(crate::proofs::HeightLaws::value_height_bounded))]
pub fn values_are_no_higher_than_their_types(value: &Value, ty: &Ty, decls: &Decls)
    requires typed { IsTrue (has_type decls.now value.now ty.now) }
    requires low { height_of decls.now ty.now ≤ highest }
    ensures { value_height value.now ≤ height_of decls.now ty.now }
{}

/// What the invariant of the declarations says.
pub fn declarations_are_sound(decls: &Decls)
    ensures { AreSound decls.now }
{
    the_order_is_computed();
    a_cycle_leaves_no_order();
}
