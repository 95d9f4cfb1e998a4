// Structures and enumerations with their parts.
ghost use Rattle.std.specs.Prelude.{◌≡◌, ◌++◌, ◌∷◌, [], IfOk, IfErr, OnOk};
ghost use Rattle.cat_verify_tables.specs.inside.Causes.{AtLine, Refuses, IsFaultyIn};
ghost use Rattle.cat_verify_tables.specs.inside.Entries.{AreTold};
ghost use Rattle.cat_verify_tables.specs.inside.NamedWords.{names_in, field_count, case_count};
ghost use Rattle.cat_verify_tables.specs.inside.PartWords.{IsFieldOf, IsWrongField, AreFieldsOf, HasWrongField};
ghost use Rattle.cat_verify_tables.specs.inside.PartWords.{IsStructureOf, IsWrongStructure};
ghost use Rattle.cat_verify_tables.specs.inside.PartWords.{IsContentOf, IsWrongContent};
ghost use Rattle.cat_verify_tables.specs.inside.PartWords.{IsCaseOf, IsWrongCase, AreCasesOf, HasWrongCase};
ghost use Rattle.cat_verify_tables.specs.inside.PartWords.{IsEnumerationOf, IsWrongEnumeration};

use crate::TableRefusal;
use crate::lines::needed;
use crate::named::{add_part_name, add_type_name};
use crate::numbers::{behind, past};
use crate::types::TypeNames;
use cat_check_names::NameTable;
use cat_image::{ImageCase, ImageEnumeration, ImageField, ImageStructure};
use cat_names::MOST_CASES;
use cat_pos::{List, Text};
use cat_value::{Case, Cases, Enumeration, Enumerations, Field, Fields, Structure, Structures, Ty};
use std::alloc::Global;

// ---- structures

/// A field behind those of some names.
fn field(
    alloc: Global,
    types: &TypeNames,
    names: &mut NameTable,
    line: &ImageField,
    number: usize,
) -> Result<Field, TableRefusal>
    ensures named { OnOk result (names_in names.new ≡ names_in names.old ++ line.now.name ∷ []) }
    ensures told { IfOk result (IsFieldOf types.now (names_in names.old) line.now) }
    ensures cause { IfErr result (AtLine number (IsWrongField types.now (names_in names.old) line.now)) }
{
    add_part_name(alloc, names, &line.name, number)?;
    let ty = types.needed_ty(alloc, line.ty.as_str(), number)?;
    let name = line.name.copy()?;
    Ok(Field { name, ty })
}

/// Fields, the first of which has that line.
fn fields(
    alloc: Global,
    types: &TypeNames,
    lines: &[ImageField],
    first: usize,
) -> Result<Fields, TableRefusal>
    ensures told { IfOk result (AreFieldsOf types.now lines.now) }
    ensures cause { IfErr result (Refuses (HasWrongField types.now lines.now first)) }
{
    let mut names = NameTable::new(alloc);
    let mut fields = Fields::new(alloc);
    for (at, line) in lines.iter().enumerate() {
        let number = behind(first, at)?;
        let made = field(alloc, types, &mut names, line, number)?;
        fields.push(made)?;
    }
    Ok(fields)
}

fn structure(
    alloc: Global,
    types: &TypeNames,
    line: &ImageStructure,
    number: usize,
) -> Result<Structure, TableRefusal>
    ensures told { IfOk result (IsStructureOf types.now line.now) }
    ensures cause { IfErr result (Refuses (IsWrongStructure types.now line.now number)) }
{
    if line.fields.is_empty() {
        return Err(TableRefusal::BadTable(number));
    }
    let first = behind(number, 1)?;
    let fields = fields(alloc, types, line.fields.as_slice(), first)?;
    let name = line.name.copy()?;
    Ok(Structure { name, fields })
}

/// Structures, the first of which has that line.
pub(crate) fn structures(
    alloc: Global,
    types: &TypeNames,
    lines: &[ImageStructure],
    first: usize,
) -> Result<Structures, TableRefusal>
    ensures told { IfOk result (AreTold (λ _. IsStructureOf types.now) [] lines.now) }
    ensures cause { IfErr result (Refuses (IsFaultyIn field_count (λ _. IsWrongStructure types.now)
        first lines.now)) }
{
    let mut structures = List::new(alloc);
    let mut number = first;
    for line in lines {
        let made = structure(alloc, types, line, number)?;
        structures.push(made)?;
        number = past(number, line.fields.len())?;
    }
    Ok(structures)
}

// ---- enumerations

/// The type of a content, where there is one.
fn content(
    alloc: Global,
    types: &TypeNames,
    text: &Option<Text>,
    number: usize,
) -> Result<Option<Ty>, TableRefusal>
    ensures told { IfOk result (IsContentOf types.now text.now) }
    ensures cause { IfErr result (AtLine number (IsWrongContent types.now text.now)) }
{
    match text {
        Some(text) => {
            let ty = types.needed_ty(alloc, text.as_str(), number)?;
            Ok(Some(ty))
        }
        None => Ok(None),
    }
}

/// A case behind those of some names.
fn case(
    alloc: Global,
    types: &TypeNames,
    names: &mut NameTable,
    line: &ImageCase,
    number: usize,
) -> Result<Case, TableRefusal>
    ensures named { OnOk result (names_in names.new ≡ names_in names.old ++ line.now.name ∷ []) }
    ensures told { IfOk result (IsCaseOf types.now (names_in names.old) line.now) }
    ensures cause { IfErr result (AtLine number (IsWrongCase types.now (names_in names.old) line.now)) }
{
    add_type_name(alloc, names, &line.name, 0, number)?;
    let content = content(alloc, types, &line.content, number)?;
    let name = line.name.copy()?;
    Ok(Case { name, content })
}

/// Cases, the first of which has that line.
fn cases(
    alloc: Global,
    types: &TypeNames,
    lines: &[ImageCase],
    first: usize,
) -> Result<Cases, TableRefusal>
    ensures told { IfOk result (AreCasesOf types.now lines.now) }
    ensures cause { IfErr result (Refuses (HasWrongCase types.now lines.now first)) }
{
    let mut names = NameTable::new(alloc);
    let mut cases = Cases::new(alloc);
    for (at, line) in lines.iter().enumerate() {
        let number = behind(first, at)?;
        needed(at < MOST_CASES, number)?;
        let made = case(alloc, types, &mut names, line, number)?;
        cases.push(made)?;
    }
    Ok(cases)
}

fn enumeration(
    alloc: Global,
    types: &TypeNames,
    line: &ImageEnumeration,
    number: usize,
) -> Result<Enumeration, TableRefusal>
    ensures told { IfOk result (IsEnumerationOf types.now line.now) }
    ensures cause { IfErr result (Refuses (IsWrongEnumeration types.now line.now number)) }
{
    if line.cases.is_empty() {
        return Err(TableRefusal::BadTable(number));
    }
    let first = behind(number, 1)?;
    let cases = cases(alloc, types, line.cases.as_slice(), first)?;
    let name = line.name.copy()?;
    Ok(Enumeration { name, cases })
}

/// Enumerations, the first of which has that line.
pub(crate) fn enumerations(
    alloc: Global,
    types: &TypeNames,
    lines: &[ImageEnumeration],
    first: usize,
) -> Result<Enumerations, TableRefusal>
    ensures told { IfOk result (AreTold (λ _. IsEnumerationOf types.now) [] lines.now) }
    ensures cause { IfErr result (Refuses (IsFaultyIn case_count (λ _. IsWrongEnumeration types.now)
        first lines.now)) }
{
    let mut enumerations = List::new(alloc);
    let mut number = first;
    for line in lines {
        let made = enumeration(alloc, types, line, number)?;
        enumerations.push(made)?;
        number = past(number, line.cases.len())?;
    }
    Ok(enumerations)
}
