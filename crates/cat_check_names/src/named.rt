// What has a name, and how it is found by a table.
ghost use Rattle.std.specs.Prelude.{◌≡◌, ◌<◌, ℕ, List as Listed, IfOk, length};
ghost use Rattle.cat_names.specs.Lookup.{first_named};
ghost use Rattle.cat_check_names.specs.Shown.{shown};
ghost use Rattle.cat_check_names.specs.Table.{IsTableOf};

use crate::NameTable;
use cat_pos::{ENTRIES_BOUND, List, Text};
use cat_tree::Variable;
use cat_value::{Case, Enumeration, Field, ItemDecl, Scope, Structure};
use std::alloc::{AllocError, Global};

/// What has a name.
pub trait Named {
    ghost name_of: { Self → Listed ℕ };

    fn name(&self) -> &Text
        ensures { result.now ≡ name_of self.now };
}

impl Named for Field {
    ghost name_of = { λ field. field.name };

    fn name(&self) -> &Text {
        &self.name
    }
}

impl Named for Case {
    ghost name_of = { λ case. case.name };

    fn name(&self) -> &Text {
        &self.name
    }
}

impl Named for ItemDecl {
    ghost name_of = { λ item. item.name };

    fn name(&self) -> &Text {
        &self.name
    }
}

impl Named for Structure {
    ghost name_of = { λ structure. structure.name };

    fn name(&self) -> &Text {
        &self.name
    }
}

impl Named for Enumeration {
    ghost name_of = { λ enumeration. enumeration.name };

    fn name(&self) -> &Text {
        &self.name
    }
}

impl Named for Scope {
    ghost name_of = { λ scope. scope.name };

    fn name(&self) -> &Text {
        &self.name
    }
}

impl Named for Variable {
    ghost use Rattle.cat_names.specs.DeclarationFaults.{variable_name};

    ghost name_of = { λ variable. (variable_name variable).text };

    fn name(&self) -> &Text {
        match self {
            Variable::Own(_, _, name, _, _) | Variable::Called(name, _) => &name.text,
        }
    }
}

/// The table of some things, each numbered by its index.
pub fn table_of<T: Named>(alloc: Global, things: &[T]) -> Result<NameTable, AllocError>
    requires { length things.now < ENTRIES_BOUND }
    ensures { IfOk result (IsTableOf T.name_of things.now) }
{
    let mut table = NameTable::new(alloc);
    for (number, thing) in things.iter().enumerate() {
        table.add(alloc, thing.name(), number as u32)?;
    }
    Ok(table)
}

/// The first of some things that has the name, with its number.
pub fn found<'a, T: Named>(
    table: &NameTable,
    things: &'a List<T>,
    name: &Text,
) -> Option<(u32, &'a T)>
    requires { IsTableOf T.name_of things.now table.now }
    ensures { shown result ≡ first_named T.name_of name.now things.now }
{
    match table.number(name) {
        Some(number) => Some((number, things.at(number as usize))),
        None => None,
    }
}
