// What the lines of structures, enumerations and scopes declare.
ghost use Rattle.std.specs.Prelude.{◌≡◌, IfOk, IfErr};
ghost use Rattle.cat_verify_tables.specs.inside.Causes.{Refuses};
ghost use Rattle.cat_verify_tables.specs.inside.HeldWords.{ArePlain};
ghost use Rattle.cat_verify_tables.specs.inside.DeclaredWords.{AreHeadersOf, HasWrongHeader, ArePartsOf, HasWrongPart};

use crate::TableRefusal;
use crate::members::{enumerations, structures};
use crate::named::{add_names, refuse_types};
use crate::numbers::fitting;
use crate::scoping::{Known, scopes};
use crate::types::TypeNames;
use cat_check_names::NameTable;
use cat_image::ImageTables;
use cat_value::{Enumerations, Scopes, Structures};
use std::alloc::Global;

/// Names by their numbers, and the lines at which enumerations and scopes begin.
#[derive(Drop)]
pub(crate) struct Headers {
    pub known: Known,
    pub enumerations: usize,
    pub scopes: usize,
}

/// What is declared.
#[derive(Drop)]
pub(crate) struct Declaring {
    pub structures: Structures,
    pub enumerations: Enumerations,
    pub scopes: Scopes,
}

/// The names of what is declared; the first structure has that line.
pub(crate) fn headings(
    alloc: Global,
    tables: &ImageTables,
    first: usize,
) -> Result<Headers, TableRefusal>
    ensures told { IfOk result (AreHeadersOf tables.now first) }
    ensures cause { IfErr result (Refuses (HasWrongHeader tables.now first)) }
{
    let structures = tables.structures.as_slice();
    let mut numbers = NameTable::new(alloc);
    let enumerations = add_names(alloc, &mut numbers, 0, structures, first)?;
    let entries = tables.enumerations.as_slice();
    let scopes = add_names(alloc, &mut numbers, structures.len(), entries, enumerations)?;
    refuse_types(&numbers, tables.scopes.as_slice(), scopes)?;
    let mut scope_names = NameTable::new(alloc);
    let _end = add_names(alloc, &mut scope_names, 0, tables.scopes.as_slice(), scopes)?;
    let types = TypeNames {
        numbers,
        structures: fitting(structures.len())?,
    };
    let known = Known {
        types,
        scopes: scope_names,
        files: tables.files.len(),
    };
    Ok(Headers {
        known,
        enumerations,
        scopes,
    })
}

/// What is declared, with its types resolved.
pub(crate) fn parts(
    alloc: Global,
    tables: &ImageTables,
    headers: &Headers,
    first: usize,
) -> Result<Declaring, TableRefusal>
    requires { ArePlain headers.now.known.types }
    ensures told { IfOk result (ArePartsOf tables.now headers.now) }
    ensures cause { IfErr result (Refuses (HasWrongPart tables.now headers.now first)) }
{
    let known = &headers.known;
    let structures = structures(alloc, &known.types, tables.structures.as_slice(), first)?;
    let lines = tables.enumerations.as_slice();
    let enumerations = enumerations(alloc, &known.types, lines, headers.enumerations)?;
    let scopes = scopes(alloc, known, tables.scopes.as_slice(), headers.scopes)?;
    Ok(Declaring {
        structures,
        enumerations,
        scopes,
    })
}
