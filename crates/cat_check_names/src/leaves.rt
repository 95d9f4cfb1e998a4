// Names that name nothing, where no expression is a part.
ghost use Rattle.std.specs.Prelude.{◌≡◌, ◌++◌, ◌||◌, is_some, OnOk};
ghost use Rattle.cat_names.specs.Lookup.{base_type};
ghost use Rattle.cat_names.specs.Unknown.{is_name, unless, in_reach, of_type, in_type, in_case, in_pattern};
ghost use Rattle.cat_check_names.specs.Tabled.{AreTabled, known_at};

use crate::{Faults, NamingContext, Texts};
use cat_names::Fault;
use cat_pos::Text;
use cat_tree::{Base, CaseName, Name, Pattern, Type};
use std::alloc::AllocError;

/// Whether a name is one of some bound ones.
#[tactic(auto, using(crate::proofs::Names::is_name_rest))]
fn is_bound(name: &Text, bound: &Texts) -> bool
    ensures { result ≡ is_name name.now bound.now }
{
    for other in bound.as_slice() {
        if other == name {
            return true;
        }
    }
    false
}

/// A name, unless it names something.
pub fn add_unless(known: bool, name: &Name, faults: &mut Faults) -> Result<(), AllocError>
    ensures { OnOk result (faults.new ≡ faults.old ++ unless known name.now) }
{
    if known {
        return Ok(());
    }
    faults.push(Fault::NameUnknown(name.pos))
}

/// A name, unless it is that of a bound one or of an item.
pub fn add_out_of_reach(
    here: &NamingContext,
    name: &Name,
    bound: &Texts,
    faults: &mut Faults,
) -> Result<(), AllocError>
    requires { AreTabled here.now }
    ensures { OnOk result (faults.new ≡ faults.old ++ in_reach (known_at here.now) name.now bound.now) }
{
    if is_bound(&name.text, bound) {
        return Ok(());
    }
    add_item_name(here, name, faults)
}

/// The name of an item.
pub fn add_item_name(
    here: &NamingContext,
    name: &Name,
    faults: &mut Faults,
) -> Result<(), AllocError>
    requires { AreTabled here.now }
    ensures { OnOk result (faults.new ≡ faults.old
        ++ unless (is_name name.now.text (known_at here.now).items) name.now) }
{
    add_unless(here.items.has(&name.text), name, faults)
}

/// The name of a type.
pub fn add_type_name(
    here: &NamingContext,
    name: &Name,
    faults: &mut Faults,
) -> Result<(), AllocError>
    requires { AreTabled here.now }
    ensures { OnOk result (faults.new ≡ faults.old ++ of_type (known_at here.now) name.now) }
{
    add_unless(here.types.named(&name.text).is_some(), name, faults)
}

/// The name of a scope.
pub fn add_scope_name(
    here: &NamingContext,
    name: &Name,
    faults: &mut Faults,
) -> Result<(), AllocError>
    requires { AreTabled here.now }
    ensures { OnOk result (faults.new ≡ faults.old
        ++ unless (is_name name.now.text (known_at here.now).scopes) name.now) }
{
    add_unless(here.scopes.has(&name.text), name, faults)
}

fn is_known_base(here: &NamingContext, base: &Base) -> bool
    requires { AreTabled here.now }
    ensures { result ≡ is_some (base_type (known_at here.now).types base.now) }
{
    match base {
        Base::Named(name) => here.types.named(name).is_some(),
        Base::Boolean | Base::Integer | Base::Decimal | Base::Money | Base::Date | Base::Duration =>
            true,
    }
}

/// A written type.
pub fn add_type(here: &NamingContext, ty: &Type, faults: &mut Faults) -> Result<(), AllocError>
    requires { AreTabled here.now }
    ensures { OnOk result (faults.new ≡ faults.old ++ in_type (known_at here.now) ty.now) }
{
    if is_known_base(here, &ty.base) {
        return Ok(());
    }
    faults.push(Fault::NameUnknown(ty.pos))
}

/// The enumeration of a case, where it is named.
pub fn add_case(
    here: &NamingContext,
    case: &CaseName,
    faults: &mut Faults,
) -> Result<(), AllocError>
    requires { AreTabled here.now }
    ensures { OnOk result (faults.new ≡ faults.old ++ in_case (known_at here.now) case.now) }
{
    match case {
        CaseName::Bare(_) => Ok(()),
        CaseName::Qualified(enumeration, _) => add_type_name(here, enumeration.get(), faults),
    }
}

/// The enumeration that a pattern names.
pub fn add_pattern(
    here: &NamingContext,
    pattern: &Pattern,
    faults: &mut Faults,
) -> Result<(), AllocError>
    requires { AreTabled here.now }
    ensures { OnOk result (faults.new ≡ faults.old ++ in_pattern (known_at here.now) pattern.now) }
{
    match pattern {
        Pattern::Case(case, _) => add_case(here, case, faults),
        Pattern::Anything => Ok(()),
    }
}
