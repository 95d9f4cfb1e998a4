// Names that stand once, and are spelled as they have to be.
ghost use Rattle.std.specs.Prelude.{◌≡◌, ◌+◌, ◌++◌, ℕ, List, [], ◌∷◌, map, IfOk, IfErr, OnOk};
ghost use Rattle.cat_scope.specs.Names.{IsOneOf};
ghost use Rattle.cat_verify_tables.specs.TypeWords.{IsTypeName, IsPartName};
ghost use Rattle.cat_verify_tables.specs.WrongParts.{IsWrongName};
ghost use Rattle.cat_verify_tables.specs.inside.Causes.{AtLine, Refuses, IsFaulty, IsFaultyIn, lines_in};
ghost use Rattle.cat_verify_tables.specs.inside.Entries.{AreRight};
ghost use Rattle.cat_verify_tables.specs.inside.NamedWords.{names_in, numbered, IsFileTwice, IsWrongHeader};
ghost use Rattle.cat_verify_tables.specs.inside.NamedWords.{IsWrongHeaderAt, IsNamedAsType, IsNamedAsTypeAt};
ghost use Rattle.cat_verify_tables.specs.inside.NamedWords.{field_count, case_count, item_count};

use crate::TableRefusal;
use crate::names::{is_part_name, is_type_name};
use crate::numbers::{behind, fitting, past};
use cat_check_names::NameTable;
use cat_image::{ImageEnumeration, ImageScope, ImageStructure};
use cat_pos::Text;
use std::alloc::Global;

/// Adds a name to those in front, or refuses the line where it is one of them.
fn add(
    alloc: Global,
    names: &mut NameTable,
    name: &Text,
    number: u32,
    line: usize,
) -> Result<(), TableRefusal>
    ensures added { OnOk result (names.new ≡ names.old ++ (name.now, number) ∷ []) }
    ensures fresh { IfOk result (λ _. IsOneOf name.now (names_in names.old) → ⊥) }
    ensures cause { IfErr result (AtLine line (IsOneOf name.now (names_in names.old))) }
{
    let fresh = names.add(alloc, name, number)?;
    if !fresh {
        return Err(TableRefusal::BadTable(line));
    }
    Ok(())
}

/// Adds the name of a structure, an enumeration, a case or a scope.
pub(crate) fn add_type_name(
    alloc: Global,
    names: &mut NameTable,
    name: &Text,
    number: u32,
    line: usize,
) -> Result<(), TableRefusal>
    ensures added { OnOk result (names.new ≡ names.old ++ (name.now, number) ∷ []) }
    ensures right { IfOk result (λ _. IsWrongName IsTypeName (names_in names.old) name.now → ⊥) }
    ensures cause { IfErr result (AtLine line (IsWrongName IsTypeName (names_in names.old) name.now)) }
{
    let spelled = is_type_name(alloc, name.as_str())?;
    if !spelled {
        return Err(TableRefusal::BadTable(line));
    }
    add(alloc, names, name, number, line)?;
    Ok(())
}

/// Adds the name of a field or an item.
pub(crate) fn add_part_name(
    alloc: Global,
    names: &mut NameTable,
    name: &Text,
    line: usize,
) -> Result<(), TableRefusal>
    ensures added { OnOk result (names_in names.new ≡ names_in names.old ++ name.now ∷ []) }
    ensures right { IfOk result (λ _. IsWrongName IsPartName (names_in names.old) name.now → ⊥) }
    ensures cause { IfErr result (AtLine line (IsWrongName IsPartName (names_in names.old) name.now)) }
{
    let spelled = is_part_name(alloc, name.as_str())?;
    if !spelled {
        return Err(TableRefusal::BadTable(line));
    }
    add(alloc, names, name, 0, line)?;
    Ok(())
}

/// Refuses a file that is named twice; the first one has that line.
pub(crate) fn refuse_files(alloc: Global, files: &[Text], first: usize) -> Result<(), TableRefusal>
    ensures right { IfOk result (λ _. AreRight IsFileTwice [] files.now) }
    ensures cause { IfErr result (Refuses (IsFaulty IsFileTwice first files.now)) }
{
    let mut names = NameTable::new(alloc);
    for (at, name) in files.iter().enumerate() {
        let line = behind(first, at)?;
        add(alloc, &mut names, name, 0, line)?;
    }
    Ok(())
}

/// What has its name in its first line, and parts in the lines behind it.
pub(crate) trait Headed {
    ghost name_of: { Self → List ℕ };

    ghost parts_of: { Self → ℕ };

    fn name(&self) -> &Text
        ensures { result.now ≡ name_of self.now };

    /// How many parts there are.
    fn parts(&self) -> usize
        ensures { result ≡ parts_of self.now };
}

impl Headed for ImageStructure {
    ghost name_of = { λ structure. structure.name };

    ghost parts_of = { field_count };

    fn name(&self) -> &Text {
        &self.name
    }

    fn parts(&self) -> usize {
        self.fields.len()
    }
}

impl Headed for ImageEnumeration {
    ghost name_of = { λ enumeration. enumeration.name };

    ghost parts_of = { case_count };

    fn name(&self) -> &Text {
        &self.name
    }

    fn parts(&self) -> usize {
        self.cases.len()
    }
}

impl Headed for ImageScope {
    ghost name_of = { λ scope. scope.name };

    ghost parts_of = { item_count };

    fn name(&self) -> &Text {
        &self.name
    }

    fn parts(&self) -> usize {
        self.items.len()
    }
}

/// Adds the names of entries, numbered from `from` on. The answer is the line behind theirs.
pub(crate) fn add_names<T: Headed>(
    alloc: Global,
    names: &mut NameTable,
    from: usize,
    entries: &[T],
    first: usize,
) -> Result<usize, TableRefusal>
    ensures added { OnOk result (names.new ≡ names.old ++ numbered from (map T.name_of entries.now)) }
    ensures line { IfOk result (λ line. line ≡ first + lines_in T.parts_of entries.now) }
    ensures right { IfOk result (λ _. AreRight (IsWrongHeader T.name_of (names_in names.old)) [] entries.now) }
    ensures cause { IfErr result (Refuses (IsFaultyIn T.parts_of
        (IsWrongHeaderAt T.name_of (names_in names.old)) first entries.now)) }
{
    let mut line = first;
    for (at, entry) in entries.iter().enumerate() {
        let number = fitting(behind(from, at)?)?;
        add_type_name(alloc, names, entry.name(), number, line)?;
        line = past(line, entry.parts())?;
    }
    Ok(line)
}

/// Refuses a scope that has the name of a type.
pub(crate) fn refuse_types(
    types: &NameTable,
    scopes: &[ImageScope],
    first: usize,
) -> Result<(), TableRefusal>
    ensures right { IfOk result (λ _. AreRight (IsNamedAsType (names_in types.now)) [] scopes.now) }
    ensures cause { IfErr result (Refuses (IsFaultyIn item_count
        (IsNamedAsTypeAt (names_in types.now)) first scopes.now)) }
{
    let mut line = first;
    for scope in scopes {
        if types.has(&scope.name) {
            return Err(TableRefusal::BadTable(line));
        }
        line = past(line, scope.items.len())?;
    }
    Ok(())
}
