//! The structures that inputs are read by.
ghost use Rattle.std.specs.Prelude.{◌≡◌, [], ◌∷◌, ◌++◌, IfOk, OnOk};
ghost use Rattle.cat_value.specs.declared.ty.Ty.TheViews as view;
ghost use Rattle.cat_rows_data.specs.Declarations as declared;

use cat_pos::{Boxed, List, Text};
use cat_value::{Field, Fields, Structure, Structures, Ty};
use std::alloc::{AllocError, Global};

pub fn structures(alloc: Global, share: &str) -> Result<Structures, AllocError>
    ensures { IfOk result (λ structures. structures ≡ declared.structures share.now) }
{
    let mut structures = List::new(alloc);
    structures.push(pair(alloc)?)?;
    structures.push(home(alloc, share)?)?;
    structures.push(individual(alloc)?)?;
    structures.push(person(alloc)?)?;
    Ok(structures)
}

fn pair(alloc: Global) -> Result<Structure, AllocError>
    ensures { IfOk result (λ structure. structure ≡ declared.pair) }
{
    let name = Text::from_str(alloc, "Pair")?;
    let flags = list(alloc, Ty::Boolean)?;
    let mut fields = List::new(alloc);
    add_field(alloc, &mut fields, "count", Ty::Integer)?;
    add_field(alloc, &mut fields, "flags", flags)?;
    Ok(Structure { name, fields })
}

fn home(alloc: Global, share: &str) -> Result<Structure, AllocError>
    ensures { IfOk result (λ structure. structure ≡ declared.home share.now) }
{
    let name = Text::from_str(alloc, "Home")?;
    let kinds = list(alloc, Ty::Enumeration(0))?;
    let mut fields = List::new(alloc);
    add_field(alloc, &mut fields, "owner", Ty::Structure(0))?;
    add_field(alloc, &mut fields, "kinds", kinds)?;
    add_field(alloc, &mut fields, "since", Ty::Duration)?;
    add_field(alloc, &mut fields, share, Ty::Decimal)?;
    Ok(Structure { name, fields })
}

fn individual(alloc: Global) -> Result<Structure, AllocError>
    ensures { IfOk result (λ structure. structure ≡ declared.individual) }
{
    let name = Text::from_str(alloc, "Individual")?;
    let mut fields = List::new(alloc);
    add_field(alloc, &mut fields, "income", Ty::Money)?;
    add_field(alloc, &mut fields, "number_of_children", Ty::Integer)?;
    Ok(Structure { name, fields })
}

fn person(alloc: Global) -> Result<Structure, AllocError>
    ensures { IfOk result (λ structure. structure ≡ declared.person) }
{
    let name = Text::from_str(alloc, "Person")?;
    let mut fields = List::new(alloc);
    add_field(alloc, &mut fields, "income", Ty::Money)?;
    add_field(alloc, &mut fields, "credit", Ty::Enumeration(2))?;
    Ok(Structure { name, fields })
}

pub fn list(alloc: Global, element: Ty) -> Result<Ty, AllocError>
    ensures { IfOk result (λ ty. ty ≡ view.List element) }
{
    Ok(Ty::List(Boxed::new(alloc, element)?))
}

fn add_field(alloc: Global, fields: &mut Fields, name: &str, ty: Ty) -> Result<(), AllocError>
    ensures { OnOk result (fields.new ≡ fields.old ++ declared.field name.now ty ∷ []) }
{
    let name = Text::from_str(alloc, name)?;
    fields.push(Field { name, ty })
}
