// The tables of declarations, built.
ghost use Rattle.std.specs.Prelude.{◌≡◌, ◌<◌, [], List as Listed, IfOk, OnOk, length, map};
ghost use Rattle.cat_value.specs.declared.declaration.Enumeration.{Enumeration as Enumerated};
ghost use Rattle.std.specs.List.{AllZip};
ghost use Rattle.cat_value.specs.Laws.{AreSound};
ghost use Rattle.cat_value.specs.Inputs.{outputs_in};
ghost use Rattle.cat_names.specs.Lookup.{type_names};
ghost use Rattle.cat_check_names.specs.Tables as words;
ghost use Rattle.cat_check_names.specs.Table.{IsTableOf};
ghost use Rattle.cat_check_names.specs.CaseTable.{AreOnlyCases};
ghost use Rattle.cat_check_names.specs.inside.Counting.{AreCounted};

use crate::{NameTable, NameTables, OnlyCases, Outputs, TypeTable, table_of};
use cat_pos::{ENTRIES_BOUND, List};
use cat_value::{Case, Decls, ItemDecl, declarations_are_sound};
use std::alloc::{AllocError, Global};

impl NameTables {
    /// The tables of some declarations. It takes time in proportion to them.
    pub fn of(alloc: Global, decls: &Decls) -> Result<NameTables, AllocError>
        ensures { IfOk result (words.AreTablesOf decls.now) }
    {
        declarations_are_sound(decls);
        let types = types_of(alloc, decls)?;
        let scopes = table_of(alloc, decls.scopes.as_slice())?;
        let fields = tables_of_fields(alloc, decls)?;
        let (cases, only_cases) = tables_of_cases(alloc, decls)?;
        let items = tables_of_items(alloc, decls)?;
        let outputs = tables_of_outputs(alloc, decls)?;
        Ok(NameTables {
            types,
            scopes,
            fields,
            cases,
            only_cases,
            items,
            outputs,
        })
    }
}

fn types_of(alloc: Global, decls: &Decls) -> Result<TypeTable, AllocError>
    ensures { IfOk result (words.AreTypesOf (type_names decls.now)) }
{
    declarations_are_sound(decls);
    let structures = table_of(alloc, decls.structures.as_slice())?;
    let enumerations = table_of(alloc, decls.enumerations.as_slice())?;
    Ok(TypeTable {
        structures,
        enumerations,
    })
}

fn tables_of_fields(alloc: Global, decls: &Decls) -> Result<List<NameTable>, AllocError>
    ensures { IfOk result (AllZip (λ s table. IsTableOf (λ f. f.name) s.fields table) decls.now.structures) }
{
    declarations_are_sound(decls);
    let mut tables = List::new(alloc);
    for structure in decls.structures.as_slice() {
        tables.push(table_of(alloc, structure.fields.as_slice())?)?;
    }
    Ok(tables)
}

fn tables_of_items(alloc: Global, decls: &Decls) -> Result<List<NameTable>, AllocError>
    ensures { IfOk result (AllZip (λ s table. IsTableOf (λ i. i.name) s.items table) decls.now.scopes) }
{
    declarations_are_sound(decls);
    let mut tables = List::new(alloc);
    for scope in decls.scopes.as_slice() {
        tables.push(table_of(alloc, scope.items.as_slice())?)?;
    }
    Ok(tables)
}

/// The cases of each enumeration, and in all of them those whose names no other enumeration has.
fn tables_of_cases(alloc: Global, decls: &Decls) -> Result<(List<NameTable>, OnlyCases), AllocError>
    ensures cases { IfOk result (λ r. AllZip (λ e table. IsTableOf (λ k. k.name) e.cases table)
        decls.now.enumerations r.0) }
    ensures only { IfOk result (λ r. AreOnlyCases decls.now.enumerations r.1) }
{
    declarations_are_sound(decls);
    let mut tables = List::new(alloc);
    let mut only_cases = OnlyCases::new(alloc);
    for (number, enumeration) in decls.enumerations.as_slice().iter().enumerate() {
        let cases = enumeration.cases.as_slice();
        tables.push(table_of_cases(alloc, number as u32, cases, &mut only_cases)?)?;
    }
    Ok((tables, only_cases))
}

/// The cases of the enumeration of that number. Each that is the first of its name there is added to those of all.
fn table_of_cases(
    alloc: Global,
    enumeration: u32,
    cases: &[Case],
    only_cases: &mut OnlyCases,
) -> Result<NameTable, AllocError>
    requires { length cases.now < ENTRIES_BOUND }
    ensures table { IfOk result (IsTableOf (λ k. k.name) cases.now) }
    ensures counted { OnOk result ((front : Listed Enumerated) → AreCounted front enumeration [] only_cases.old
        → AreCounted front enumeration cases.now only_cases.new) }
{
    let mut table = NameTable::new(alloc);
    for (number, case) in cases.iter().enumerate() {
        let number = number as u32;
        if !table.add(alloc, &case.name, number)? {
            continue;
        }
        only_cases.add(alloc, &case.name, (enumeration, number))?;
    }
    Ok(table)
}

fn tables_of_outputs(alloc: Global, decls: &Decls) -> Result<List<Outputs>, AllocError>
    ensures { IfOk result (AllZip (λ s outputs. words.AreOutputsOf s.items outputs) decls.now.scopes) }
{
    declarations_are_sound(decls);
    let mut tables = List::new(alloc);
    for scope in decls.scopes.as_slice() {
        tables.push(outputs_of(alloc, scope.items.as_slice())?)?;
    }
    Ok(tables)
}

fn outputs_of(alloc: Global, items: &[ItemDecl]) -> Result<Outputs, AllocError>
    requires { length items.now < ENTRIES_BOUND }
    ensures { IfOk result (words.AreOutputsOf items.now) }
{
    let mut names = NameTable::new(alloc);
    let mut numbers = List::new(alloc);
    for (item, decl) in items.iter().enumerate() {
        if !decl.kind.is_output() {
            continue;
        }
        names.add(alloc, &decl.name, numbers.len() as u32)?;
        numbers.push(item as u32)?;
    }
    Ok(Outputs {
        names,
        items: numbers,
    })
}
