// What was read of a listing, and the lines that are due.
ghost use Rattle.std.specs.Prelude.{◌≡◌, [], IfOk};
ghost use Rattle.cat_image.specs.inside.Reading as words;
ghost use Rattle.cat_image.specs.inside.Putting as rows;

use crate::{
    ImageCase, ImageCases, ImageConstant, ImageEnumeration, ImageField, ImageFields, ImageItem,
    ImageItems, ImagePos, ImageScope, ImageStructure, ImageTables, ImageTarget, Row,
};
use cat_code::{Instr, Instrs};
use cat_pos::{List, Numbers, Text};
use std::alloc::{AllocError, Global};

/// The lines up to some place, and the kind of the last of them: lines of kinds in front of it are no longer due.
#[derive(Drop)]
pub(crate) struct Reading {
    pub tables: ImageTables,
    pub instructions: Instrs,
    pub section: u8,
}

const FILES: u8 = 0;

const STRUCTURES: u8 = 1;

const ENUMERATIONS: u8 = 2;

const SCOPES: u8 = 3;

const TARGETS: u8 = 4;

const DEFINITIONS: u8 = 5;

const FUNCTIONS: u8 = 6;

const POSITIONS: u8 = 7;

const CONSTANTS: u8 = 8;

const INSTRUCTIONS: u8 = 9;

pub(crate) fn nothing_read(alloc: Global) -> Reading
    ensures { result ≡ words.nothing_read }
{
    Reading {
        tables: ImageTables {
            files: List::new(alloc),
            structures: List::new(alloc),
            enumerations: List::new(alloc),
            scopes: List::new(alloc),
            targets: List::new(alloc),
            definitions: List::new(alloc),
            functions: Numbers::new(alloc),
            positions: List::new(alloc),
            constants: List::new(alloc),
        },
        instructions: Instrs::new(alloc),
        section: FILES,
    }
}

// ---- declarations

fn put_file(reading: &mut Reading, name: Text) -> Result<bool, AllocError>
    ensures { IfOk result (λ taken. words.Takes (rows.put_file reading.old name) taken reading.new) }
{
    if reading.section > FILES {
        return Ok(false);
    }
    reading.section = FILES;
    reading.tables.files.push(name)?;
    Ok(true)
}

fn put_structure(alloc: Global, reading: &mut Reading, name: Text) -> Result<bool, AllocError>
    ensures { IfOk result (λ taken. words.Takes (rows.put_structure reading.old name) taken reading.new) }
{
    if reading.section > STRUCTURES {
        return Ok(false);
    }
    reading.section = STRUCTURES;
    let fields = ImageFields::new(alloc);
    reading
        .tables
        .structures
        .push(ImageStructure { name, fields })?;
    Ok(true)
}

fn put_field(reading: &mut Reading, field: ImageField) -> Result<bool, AllocError>
    ensures { IfOk result (λ taken. words.Takes (rows.put_field reading.old field) taken reading.new) }
{
    if reading.section != STRUCTURES {
        return Ok(false);
    }
    let Some(mut structure) = reading.tables.structures.pop() else {
        return Ok(false);
    };
    structure.fields.push(field)?;
    reading.tables.structures.push(structure)?;
    Ok(true)
}

fn put_enumeration(alloc: Global, reading: &mut Reading, name: Text) -> Result<bool, AllocError>
    ensures { IfOk result (λ taken. words.Takes (rows.put_enumeration reading.old name) taken reading.new) }
{
    if reading.section > ENUMERATIONS {
        return Ok(false);
    }
    reading.section = ENUMERATIONS;
    let cases = ImageCases::new(alloc);
    reading
        .tables
        .enumerations
        .push(ImageEnumeration { name, cases })?;
    Ok(true)
}

fn put_case(reading: &mut Reading, case: ImageCase) -> Result<bool, AllocError>
    ensures { IfOk result (λ taken. words.Takes (rows.put_case reading.old case) taken reading.new) }
{
    if reading.section != ENUMERATIONS {
        return Ok(false);
    }
    let Some(mut enumeration) = reading.tables.enumerations.pop() else {
        return Ok(false);
    };
    enumeration.cases.push(case)?;
    reading.tables.enumerations.push(enumeration)?;
    Ok(true)
}

fn put_scope(
    alloc: Global,
    reading: &mut Reading,
    name: Text,
    entry: u32,
) -> Result<bool, AllocError>
    ensures { IfOk result (λ taken. words.Takes (rows.put_scope reading.old name entry) taken reading.new) }
{
    if reading.section > SCOPES {
        return Ok(false);
    }
    reading.section = SCOPES;
    let items = ImageItems::new(alloc);
    reading
        .tables
        .scopes
        .push(ImageScope { name, entry, items })?;
    Ok(true)
}

fn put_item(reading: &mut Reading, item: ImageItem) -> Result<bool, AllocError>
    ensures { IfOk result (λ taken. words.Takes (rows.put_item reading.old item) taken reading.new) }
{
    if reading.section != SCOPES {
        return Ok(false);
    }
    let Some(mut scope) = reading.tables.scopes.pop() else {
        return Ok(false);
    };
    scope.items.push(item)?;
    reading.tables.scopes.push(scope)?;
    Ok(true)
}

// ---- the tables behind the declarations

fn put_target(reading: &mut Reading, target: ImageTarget) -> Result<bool, AllocError>
    ensures { IfOk result (λ taken. words.Takes (rows.put_target reading.old target) taken reading.new) }
{
    if reading.section > TARGETS {
        return Ok(false);
    }
    reading.section = TARGETS;
    reading.tables.targets.push(target)?;
    Ok(true)
}

fn put_definition(reading: &mut Reading, pos: ImagePos) -> Result<bool, AllocError>
    ensures { IfOk result (λ taken. words.Takes (rows.put_definition reading.old pos) taken reading.new) }
{
    if reading.section > DEFINITIONS {
        return Ok(false);
    }
    reading.section = DEFINITIONS;
    reading.tables.definitions.push(pos)?;
    Ok(true)
}

fn put_function(reading: &mut Reading, entry: u32) -> Result<bool, AllocError>
    ensures { IfOk result (λ taken. words.Takes (rows.put_function reading.old entry) taken reading.new) }
{
    if reading.section > FUNCTIONS {
        return Ok(false);
    }
    reading.section = FUNCTIONS;
    reading.tables.functions.push(entry)?;
    Ok(true)
}

fn put_position(reading: &mut Reading, pos: ImagePos) -> Result<bool, AllocError>
    ensures { IfOk result (λ taken. words.Takes (rows.put_position reading.old pos) taken reading.new) }
{
    if reading.section > POSITIONS {
        return Ok(false);
    }
    reading.section = POSITIONS;
    reading.tables.positions.push(pos)?;
    Ok(true)
}

fn put_constant(reading: &mut Reading, constant: ImageConstant) -> Result<bool, AllocError>
    ensures { IfOk result (λ taken. words.Takes (rows.put_constant reading.old constant) taken reading.new) }
{
    if reading.section > CONSTANTS {
        return Ok(false);
    }
    reading.section = CONSTANTS;
    reading.tables.constants.push(constant)?;
    Ok(true)
}

// ---- instructions

fn put_instruction(reading: &mut Reading, place: u32, instr: Instr) -> Result<bool, AllocError>
    ensures { IfOk result (λ taken. words.Takes (rows.put_instruction reading.old place instr) taken reading.new) }
{
    if place as usize != reading.instructions.len() {
        return Ok(false);
    }
    reading.section = INSTRUCTIONS;
    reading.instructions.push(instr)?;
    Ok(true)
}

/// Takes a row; whether it is due.
pub(crate) fn put(alloc: Global, reading: &mut Reading, row: Row) -> Result<bool, AllocError>
    ensures { IfOk result (λ taken. words.Takes (rows.put reading.old row) taken reading.new) }
{
    match row {
        Row::File(name) => put_file(reading, name),
        Row::Structure(name) => put_structure(alloc, reading, name),
        Row::Field(field) => put_field(reading, field),
        Row::Enumeration(name) => put_enumeration(alloc, reading, name),
        Row::Case(case) => put_case(reading, case),
        Row::Scope(name, entry) => put_scope(alloc, reading, name, entry),
        Row::Item(item) => put_item(reading, item),
        Row::Target(target) => put_target(reading, target),
        Row::Definition(pos) => put_definition(reading, pos),
        Row::Function(entry) => put_function(reading, entry),
        Row::Position(pos) => put_position(reading, pos),
        Row::Constant(constant) => put_constant(reading, constant),
        Row::Instruction(place, instr) => put_instruction(reading, place, instr),
    }
}
