// The calls that take memory, on a structure and an enumeration.
use crate::{
    Case, Decls, Enumeration, Field, Structure, Ty, Value, copy, copy_ty, is_declared, least_value,
};
use cat_pos::{Boxed, List, Text};
use std::alloc::{AllocError, Global};
use std::test::Fail;

/// A structure of an integer and a list of booleans, and an enumeration whose first case holds a list of integers and
/// whose second holds nothing.
fn sample(alloc: Global) -> Result<Decls, AllocError> {
    let mut fields = List::new(alloc);
    fields.push(Field {
        name: Text::from_str(alloc, "count")?,
        ty: Ty::Integer,
    })?;
    let booleans = Ty::List(Boxed::new(alloc, Ty::Boolean)?);
    fields.push(Field {
        name: Text::from_str(alloc, "flags")?,
        ty: booleans,
    })?;
    let mut structures = List::new(alloc);
    let name = Text::from_str(alloc, "Pair")?;
    structures.push(Structure { name, fields })?;
    let mut cases = List::new(alloc);
    let integers = Ty::List(Boxed::new(alloc, Ty::Integer)?);
    cases.push(Case {
        name: Text::from_str(alloc, "Many")?,
        content: Some(integers),
    })?;
    cases.push(Case {
        name: Text::from_str(alloc, "None")?,
        content: None,
    })?;
    let mut enumerations = List::new(alloc);
    let name = Text::from_str(alloc, "Choice")?;
    enumerations.push(Enumeration { name, cases })?;
    Ok(Decls::from_parts(structures, enumerations, List::new(alloc)))
}

// The structure, with the fields' defaults, and the enumeration, with its first case's.
#[test]
fn declared_types_have_their_defaults(rt: HostRuntime) -> Result<(), Fail> {
    let alloc = rt.alloc();
    let decls = sample(alloc)?;
    let wanted = [
        (
            Ty::Structure(0),
            "Structure(List { items: [Integer(Whole { value: 0 }), List(List { items: [] })] })",
        ),
        (
            Ty::Enumeration(0),
            "Case(0, Some(Boxed { inner: List(List { items: [] }) }))",
        ),
    ];
    for (ty, wanted) in wanted {
        assert!(rt; is_declared(&ty, &decls));
        let value = copy(alloc, &least_value(alloc, &ty, &decls)?)?;
        assert_eq!(rt; format!(in alloc; "{value:?}")?.as_str(), wanted);
    }
    Ok(())
}

#[test]
fn types_and_long_lists_are_copied(rt: HostRuntime) -> Result<(), Fail> {
    let alloc = rt.alloc();
    let ty = Ty::List(Boxed::new(alloc, Ty::Structure(7))?);
    let ty = copy_ty(alloc, &ty)?;
    assert_eq!(rt;
        format!(in alloc; "{ty:?}")?.as_str(),
        "List(Boxed { inner: Structure(7) })"
    );
    let mut truths = List::new(alloc);
    for n in 0..200_000 {
        truths.push(Value::Boolean(n % 3 == 0))?;
    }
    match copy(alloc, &Value::List(truths))? {
        Value::List(copies) => assert_eq!(rt; copies.len(), 200_000),
        other => assert!(rt; false, "{other:?}"),
    }
    Ok(())
}
