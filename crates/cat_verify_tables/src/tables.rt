// The tables that the lines of an image tell, or the first line that names, spells or declares something wrong.
ghost use Rattle.std.specs.Prelude.{◌≡◌, ◌<◌, ◌≤◌, ◌+◌, [], length, map, take, IfOk, IfErr};
ghost use Rattle.cat_pos.specs.declared.limits.TheConstants.{ENTRIES_BOUND};
ghost use Rattle.cat_verify_tables.specs.TableWords.{IsTold};
ghost use Rattle.cat_verify_tables.specs.WrongTables.{HasCause};
ghost use Rattle.cat_verify_tables.specs.inside.Causes.{Refuses, IsFaulty, lines_in};
ghost use Rattle.cat_verify_tables.specs.inside.DeclarationWords.{HasFewRows, AreDeclared, AreTablesTold};
ghost use Rattle.cat_verify_tables.specs.inside.DeclarationWords.{IsLineOf, LacksEntry, IsTabled};
ghost use Rattle.cat_verify_tables.specs.inside.DeclarationWords.{AreSectionsOf, AreConstantsTold, targets_from};
ghost use Rattle.cat_verify_tables.specs.inside.DeclarationWords.{definitions_from, positions_from};
ghost use Rattle.cat_verify_tables.specs.inside.DeclarationWords.{constants_from};
ghost use Rattle.cat_verify_tables.specs.inside.DeclaredWords.{scopes_from};
ghost use Rattle.cat_verify_tables.specs.inside.Entries.{AreTold};
ghost use Rattle.cat_verify_tables.specs.inside.FoundPlaces.{IsPosOf, IsPosLost};
ghost use Rattle.cat_verify_tables.specs.inside.LowWords.{AreLow, HasHighPart};
ghost use Rattle.cat_verify_tables.specs.inside.NamedWords.{item_count};
ghost use Rattle.cat_verify_tables.specs.inside.TargetNaming.{IsEntryOf};

use crate::TableRefusal;
use crate::constants::Typing;
use crate::declared::{Declaring, Headers, headings, parts};
use crate::heights::Measures;
use crate::in_order::ordered;
use crate::lines::position;
use crate::named::refuse_files;
use crate::numbers::{behind, past};
use crate::places::{FunctionPlace, FunctionPlaces, case_places, function_places};
use crate::targets::Naming;
use cat_check_names::NameTables;
use cat_code::{Constants, Tables, TargetEntries};
use cat_image::{Image, ImagePos, ImageScope, ImageTables, an_image_has_few_rows};
use cat_order::a_cycle_leaves_no_order;
use cat_pos::{Files, Numbers, Positions, Shared, Text};
use cat_value::{Decls, TypeHeights};
use std::alloc::{AllocError, Global};

/// Tables, with what is looked up in them.
#[derive(Drop)]
pub struct Told {
    pub tables: Tables,
    pub files: Files,
    pub functions: FunctionPlaces,
    /// The structures, and the enumerations behind them by number, each behind its parts.
    pub order: Numbers,
}

/// The line of the first file.
const FIRST_LINE: usize = 2;

/// What is declared, with what is looked up in it.
#[derive(Drop)]
struct Declared {
    decls: Shared<Decls>,
    headers: Headers,
    heights: TypeHeights,
    order: Numbers,
}

/// Tables behind declarations, with what is looked up in them.
#[derive(Drop)]
struct Tabled {
    tables: Tables,
    files: Files,
    functions: FunctionPlaces,
}

/// The heights of types, none of which is too high; structures begin at that line.
fn heights(
    alloc: Global,
    parts: &Declaring,
    headers: &Headers,
    first: usize,
) -> Result<TypeHeights, TableRefusal>
    ensures low { IfOk result (AreLow parts.now) }
    ensures cause { IfErr result (Refuses (HasHighPart parts.now headers.now first)) }
{
    let heights = TypeHeights::of(alloc, &parts.structures, &parts.enumerations)?;
    let measures = Measures {
        structures: &parts.structures,
        enumerations: &parts.enumerations,
        heights,
    };
    measures.refuse_structures(parts.structures.as_slice(), first)?;
    let enumerations = parts.enumerations.as_slice();
    measures.refuse_enumerations(enumerations, headers.enumerations)?;
    measures.refuse_scopes(parts.scopes.as_slice(), headers.scopes)?;
    let Measures {
        structures: _,
        enumerations: _,
        heights,
    } = measures;
    Ok(heights)
}

/// What is declared, each type at most as high as it may be.
fn declarations(alloc: Global, tables: &ImageTables) -> Result<Declared, TableRefusal>
    requires { HasFewRows tables.now }
    ensures told { IfOk result (AreDeclared tables.now) }
    ensures cause { IfErr result (HasCause tables.now) }
{
    refuse_files(alloc, tables.files.as_slice(), FIRST_LINE)?;
    let first = behind(FIRST_LINE, tables.files.len())?;
    let headers = headings(alloc, tables, first)?;
    let parts = parts(alloc, tables, &headers, first)?;
    let order = ordered(alloc, &parts.structures, &parts.enumerations, first)?;
    let heights = heights(alloc, &parts, &headers, first)?;
    let Declaring {
        structures,
        enumerations,
        scopes,
    } = parts;
    let decls = Decls::from_parts(structures, enumerations, scopes);
    let decls = Shared::new(alloc, decls)?;
    Ok(Declared {
        decls,
        headers,
        heights,
        order,
    })
}

/// The line of the scope of that number, or the one behind them all; scopes begin at line `first`.
fn scope_line(scopes: &[ImageScope], first: usize, number: usize) -> Result<usize, AllocError>
    ensures { IfOk result (λ line. line ≡ first + lines_in item_count (take number scopes.now)) }
{
    let mut line = first;
    for (at, scope) in scopes.iter().enumerate() {
        if at == number {
            return Ok(line);
        }
        line = past(line, scope.items.len())?;
    }
    Ok(line)
}

/// The line of the item of a function; scopes begin at that line.
fn line_of_item(
    scopes: &[ImageScope],
    place: FunctionPlace,
    first: usize,
) -> Result<usize, AllocError>
    ensures { IfOk result (IsLineOf scopes.now place first) }
{
    let line = scope_line(scopes, first, place.scope as usize)?;
    past(line, place.item as usize)
}

/// Refuses the item of a function without a line that says where it begins.
fn refuse_functions(
    image: &ImageTables,
    functions: &FunctionPlaces,
    scopes: usize,
) -> Result<(), TableRefusal>
    ensures enough { IfOk result (λ _. length functions.now ≤ length image.now.functions) }
    ensures cause { IfErr result (Refuses (LacksEntry image.now functions.now scopes)) }
{
    match functions.get(image.functions.len()) {
        Some(place) => {
            let line = line_of_item(image.scopes.as_slice(), *place, scopes)?;
            Err(TableRefusal::BadTable(line))
        }
        None => Ok(()),
    }
}

/// Positions, the first of which has that line.
fn positions(
    alloc: Global,
    files: usize,
    lines: &[ImagePos],
    first: usize,
) -> Result<Positions, TableRefusal>
    ensures told { IfOk result (AreTold (λ _. IsPosOf files) [] lines.now) }
    ensures cause { IfErr result (Refuses (IsFaulty (λ _. IsPosLost files) first lines.now)) }
{
    let mut positions = Positions::new(alloc);
    for (at, &pos) in lines.iter().enumerate() {
        let number = behind(first, at)?;
        let made = position(files, pos, number)?;
        positions.push(made)?;
    }
    Ok(positions)
}

/// Where each scope begins.
fn entries_of(alloc: Global, scopes: &[ImageScope]) -> Result<Numbers, AllocError>
    ensures { IfOk result (λ entries. entries ≡ map (λ s. s.entry) scopes.now) }
{
    let mut entries = Numbers::new(alloc);
    for scope in scopes {
        entries.push(scope.entry)?;
    }
    Ok(entries)
}

fn files_of(alloc: Global, names: &[Text]) -> Result<Files, AllocError>
    requires { length names.now < ENTRIES_BOUND }
    ensures { IfOk result (λ files. files ≡ names.now) }
{
    let mut files = Files::new(alloc);
    for name in names {
        files.add(name.as_str())?;
    }
    Ok(files)
}

/// The first lines of what stands behind the scopes.
#[derive(Clone, Copy)]
struct Sections {
    targets: usize,
    definitions: usize,
    positions: usize,
    constants: usize,
}

/// Where what stands behind the scopes begins; scopes begin at that line.
fn sections_of(image: &ImageTables, scopes_at: usize) -> Result<Sections, AllocError>
    requires { scopes_at ≡ scopes_from image.now (2 + length image.now.files) }
    ensures { IfOk result (AreSectionsOf image.now) }
{
    let scopes = image.scopes.as_slice();
    let targets = scope_line(scopes, scopes_at, scopes.len())?;
    let definitions = behind(targets, image.targets.len())?;
    let functions = behind(definitions, image.definitions.len())?;
    let positions = behind(functions, image.functions.len())?;
    let constants = behind(positions, image.positions.len())?;
    Ok(Sections {
        targets,
        definitions,
        positions,
        constants,
    })
}

/// The targets, the first of which has that line.
fn targets_of(
    alloc: Global,
    declared: &Declared,
    image: &ImageTables,
    first: usize,
) -> Result<TargetEntries, TableRefusal>
    requires declared { AreDeclared image.now declared.now }
    requires first { first ≡ targets_from image.now }
    ensures told { IfOk result (AreTold (λ _. IsEntryOf declared.now.decls (length image.now.files)) []
        image.now.targets) }
    ensures cause { IfErr result (HasCause image.now) }
{
    let decls = declared.decls.get();
    let names = NameTables::of(alloc, decls)?;
    let files = image.files.len();
    let named = Naming {
        decls,
        names,
        files,
    };
    let targets = named.entries(alloc, image.targets.as_slice(), first)?;
    Ok(targets)
}

/// The positions of definitions, the first of which has that line.
fn definitions_of(
    alloc: Global,
    image: &ImageTables,
    first: usize,
) -> Result<Positions, TableRefusal>
    requires { first ≡ definitions_from image.now }
    ensures told { IfOk result (AreTold (λ _. IsPosOf (length image.now.files)) [] image.now.definitions) }
    ensures cause { IfErr result (HasCause image.now) }
{
    let lines = image.definitions.as_slice();
    let definitions = positions(alloc, image.files.len(), lines, first)?;
    Ok(definitions)
}

/// The positions of instructions, the first of which has that line.
fn positions_of(alloc: Global, image: &ImageTables, first: usize) -> Result<Positions, TableRefusal>
    requires { first ≡ positions_from image.now }
    ensures told { IfOk result (AreTold (λ _. IsPosOf (length image.now.files)) [] image.now.positions) }
    ensures cause { IfErr result (HasCause image.now) }
{
    let lines = image.positions.as_slice();
    let places = positions(alloc, image.files.len(), lines, first)?;
    Ok(places)
}

/// The constants, the first of which has that line.
fn constants_of(
    alloc: Global,
    declared: &Declared,
    image: &ImageTables,
    first: usize,
) -> Result<Constants, TableRefusal>
    requires declared { AreDeclared image.now declared.now }
    requires first { first ≡ constants_from image.now }
    ensures told { IfOk result (AreConstantsTold image.now declared.now.decls) }
    ensures cause { IfErr result (HasCause image.now) }
{
    let typing = Typing {
        decls: declared.decls.get(),
        types: &declared.headers.known.types,
        heights: &declared.heights,
    };
    let constants = typing.constants(alloc, image.constants.as_slice(), first)?;
    Ok(constants)
}

/// The tables behind the declarations.
fn tables_of(
    alloc: Global,
    declared: &Declared,
    image: &ImageTables,
) -> Result<Tables, TableRefusal>
    requires { AreDeclared image.now declared.now }
    ensures told { IfOk result (AreTablesTold image.now declared.now) }
    ensures cause { IfErr result (HasCause image.now) }
{
    let first = sections_of(image, declared.headers.scopes)?;
    let targets = targets_of(alloc, declared, image, first.targets)?;
    let definitions = definitions_of(alloc, image, first.definitions)?;
    let positions = positions_of(alloc, image, first.positions)?;
    let constants = constants_of(alloc, declared, image, first.constants)?;
    let cases = case_places(alloc, declared.decls.get())?;
    let scopes = entries_of(alloc, image.scopes.as_slice())?;
    let functions = Numbers::from_slice(alloc, image.functions.as_slice())?;
    let decls = declared.decls.copy()?;
    Ok(Tables {
        decls,
        cases,
        scopes,
        targets,
        definitions,
        functions,
        positions,
        constants,
    })
}

/// What stands behind declarations.
fn tabled_of(
    alloc: Global,
    declared: &Declared,
    image: &ImageTables,
) -> Result<Tabled, TableRefusal>
    requires few { HasFewRows image.now }
    requires declared { AreDeclared image.now declared.now }
    ensures told { IfOk result (IsTabled image.now declared.now) }
    ensures cause { IfErr result (HasCause image.now) }
{
    let functions = function_places(alloc, declared.decls.get())?;
    refuse_functions(image, &functions, declared.headers.scopes)?;
    let files = files_of(alloc, image.files.as_slice())?;
    let tables = tables_of(alloc, declared, image)?;
    Ok(Tabled {
        tables,
        files,
        functions,
    })
}

/// The tables that the lines of an image tell.
pub fn tell(alloc: Global, image: &Image) -> Result<Told, TableRefusal>
    ensures told { IfOk result (IsTold image.now.tables) }
    ensures cause { IfErr result (HasCause image.now.tables) }
{
    an_image_has_few_rows(image);
    a_cycle_leaves_no_order();
    let tables = image.tables();
    let declared = declarations(alloc, tables)?;
    let Tabled {
        tables,
        files,
        functions,
    } = tabled_of(alloc, &declared, tables)?;
    let order = declared.order;
    Ok(Told {
        tables,
        files,
        functions,
        order,
    })
}
