// Which structures and enumerations stand in the declarations of which.
ghost use Rattle.std.specs.Prelude.{◌≡◌, ◌<◌, ◌+◌, ◌++◌, ◌^◌, IfOk, OnOk, IsTrue, length, map};
ghost use Rattle.std.specs.List.{list_all};
ghost use Rattle.cat_value.specs.Declarations.{is_declared, field_is_sound, case_is_sound, content_is_sound};
ghost use Rattle.cat_value.specs.Dependencies.{named_by, named_by_fields, named_by_content, named_by_cases};
ghost use Rattle.cat_value.specs.Dependencies.{type_dependencies};
ghost use Rattle.cat_depend.specs.Types.{AreThere};

use cat_pos::{List, NumberLists, Numbers};
use cat_value::{Case, Enumerations, Field, Structures, Ty};
use std::alloc::{AllocError, Global};

/// What a type names.
#[tactic(auto, using(crate::proofs::TypeNames::named_types))]
fn add_named(
    structures: &Structures,
    enumerations: &Enumerations,
    ty: &Ty,
    named: &mut Numbers,
) -> Result<(), AllocError>
    requires few { length structures.now + length enumerations.now < 2 ^ 32 }
    requires declared { IsTrue (is_declared structures.now enumerations.now ty.now) }
    ensures { OnOk result (named.new ≡ named.old ++ named_by (length structures.now) ty.now) }
{
    match ty {
        Ty::List(element) => add_named(structures, enumerations, element.get(), named),
        Ty::Structure(structure) => named.push(*structure),
        Ty::Enumeration(enumeration) => named.push(structures.len() as u32 + *enumeration),
        Ty::Boolean | Ty::Integer | Ty::Decimal | Ty::Money | Ty::Date | Ty::Duration => Ok(()),
    }
}

/// What the fields of a structure name.
fn add_fields_named(
    structures: &Structures,
    enumerations: &Enumerations,
    fields: &[Field],
    named: &mut Numbers,
) -> Result<(), AllocError>
    requires few { length structures.now + length enumerations.now < 2 ^ 32 }
    requires declared { IsTrue (list_all (field_is_sound structures.now enumerations.now) fields.now) }
    ensures { OnOk result (named.new ≡ named.old ++ named_by_fields (length structures.now) fields.now) }
{
    for field in fields {
        add_named(structures, enumerations, &field.ty, named)?;
    }
    Ok(())
}

/// What the content of a case names, where it has one.
fn add_content_named(
    structures: &Structures,
    enumerations: &Enumerations,
    content: &Option<Ty>,
    named: &mut Numbers,
) -> Result<(), AllocError>
    requires few { length structures.now + length enumerations.now < 2 ^ 32 }
    requires declared { IsTrue (content_is_sound structures.now enumerations.now content.now) }
    ensures { OnOk result (named.new ≡ named.old ++ named_by_content (length structures.now) content.now) }
{
    match content {
        Some(ty) => add_named(structures, enumerations, ty, named),
        None => Ok(()),
    }
}

/// What the cases of an enumeration name.
fn add_cases_named(
    structures: &Structures,
    enumerations: &Enumerations,
    cases: &[Case],
    named: &mut Numbers,
) -> Result<(), AllocError>
    requires few { length structures.now + length enumerations.now < 2 ^ 32 }
    requires declared { IsTrue (list_all (case_is_sound structures.now enumerations.now) cases.now) }
    ensures { OnOk result (named.new ≡ named.old ++ named_by_cases (length structures.now) cases.now) }
{
    for case in cases {
        add_content_named(structures, enumerations, &case.content, named)?;
    }
    Ok(())
}

/// For each structure, what it depends on.
fn add_structures(
    alloc: Global,
    structures: &Structures,
    enumerations: &Enumerations,
    dependencies: &mut NumberLists,
) -> Result<(), AllocError>
    requires there { AreThere structures.now enumerations.now }
    ensures { OnOk result (dependencies.new ≡ dependencies.old
        ++ map (λ s. named_by_fields (length structures.now) s.fields) structures.now) }
{
    for structure in structures.as_slice() {
        let mut named = List::new(alloc);
        add_fields_named(
            structures,
            enumerations,
            structure.fields.as_slice(),
            &mut named,
        )?;
        dependencies.push(named)?;
    }
    Ok(())
}

/// For each enumeration, what it depends on.
fn add_enumerations(
    alloc: Global,
    structures: &Structures,
    enumerations: &Enumerations,
    dependencies: &mut NumberLists,
) -> Result<(), AllocError>
    requires there { AreThere structures.now enumerations.now }
    ensures { OnOk result (dependencies.new ≡ dependencies.old
        ++ map (λ e. named_by_cases (length structures.now) e.cases) enumerations.now) }
{
    for enumeration in enumerations.as_slice() {
        let mut named = List::new(alloc);
        add_cases_named(
            structures,
            enumerations,
            enumeration.cases.as_slice(),
            &mut named,
        )?;
        dependencies.push(named)?;
    }
    Ok(())
}

/// For each structure, and behind these for each enumeration, the ones that it depends on. It takes time in proportion
/// to the types.
pub fn type_dependencies(
    alloc: Global,
    structures: &Structures,
    enumerations: &Enumerations,
) -> Result<NumberLists, AllocError>
    requires there { AreThere structures.now enumerations.now }
    ensures { IfOk result (λ dependencies. dependencies ≡ type_dependencies structures.now enumerations.now) }
{
    let mut dependencies = List::new(alloc);
    add_structures(alloc, structures, enumerations, &mut dependencies)?;
    add_enumerations(alloc, structures, enumerations, &mut dependencies)?;
    Ok(dependencies)
}
