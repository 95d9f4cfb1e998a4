// What names name in declarations.
ghost use Rattle.std.specs.Prelude.{◌≡◌, slice_get, option_map, option_and_then};
ghost use Rattle.cat_scope.specs.Names.{scope_items};
ghost use Rattle.cat_value.specs.Inputs.{outputs_in};
ghost use Rattle.cat_names.specs.declared.fault.Fault.TheVariants.{NameUnknown};
ghost use Rattle.cat_names.specs.Found.{or_fault};
ghost use Rattle.cat_names.specs.Lookup.{type_named, type_names, scope_named, item_named, case_named, cases_named};
ghost use Rattle.cat_names.specs.Naming.{only_case};
ghost use Rattle.cat_names.specs.Forms.{field_named, output_named};
ghost use Rattle.cat_check_names.specs.Tables.{AreOutputsOf, AreTablesOf};
ghost use Rattle.cat_check_names.specs.Shown.{shown};

use crate::{NameTables, Outputs, found};
use cat_pos::Text;
use cat_tree::Name;
use cat_value::{Decls, ItemDecl, ItemDecls, Ty};

impl NameTables {
    /// The type of that name.
    pub fn type_named(&self, decls: &Decls, name: &Text) -> Option<Ty>
        requires { AreTablesOf decls.now self.now }
        ensures { result ≡ type_named (type_names decls.now) name.now }
    {
        self.types.named(name)
    }

    /// The number of the scope of that name.
    pub fn scope_named(&self, decls: &Decls, name: &Text) -> Option<u32>
        requires { AreTablesOf decls.now self.now }
        ensures { result ≡ option_map (λ s. s.0) (scope_named name.now decls.now.scopes) }
    {
        self.scopes.number(name)
    }

    /// The field of that name of a structure, with its number and its type.
    pub fn field<'a>(&self, decls: &'a Decls, structure: u32, name: &Text) -> Option<(u32, &'a Ty)>
        requires { AreTablesOf decls.now self.now }
        ensures { shown result ≡ field_named decls.now structure name.now }
    {
        let Some(declared) = decls.structures.get(structure as usize) else {
            return None;
        };
        let table = self.fields.at(structure as usize);
        match found(table, &declared.fields, name) {
            Some((number, field)) => Some((number, &field.ty)),
            None => None,
        }
    }

    /// The case of that name of an enumeration: the enumeration's number, and its own.
    pub fn case(&self, decls: &Decls, enumeration: u32, name: &Text) -> Option<(u32, u32)>
        requires { AreTablesOf decls.now self.now }
        ensures { result ≡ option_and_then (λ e. case_named name.now (enumeration, e))
            (slice_get decls.now.enumerations enumeration) }
    {
        let Some(declared) = decls.enumerations.get(enumeration as usize) else {
            return None;
        };
        let table = self.cases.at(enumeration as usize);
        match found(table, &declared.cases, name) {
            Some((number, _)) => Some((enumeration, number)),
            None => None,
        }
    }

    /// The only case of that name in all enumerations: the enumeration's number, and its own.
    pub fn only_case(&self, decls: &Decls, name: &Name) -> Option<(u32, u32)>
        requires { AreTablesOf decls.now self.now }
        ensures { or_fault (NameUnknown name.now.pos) result
            ≡ only_case name.now.pos (cases_named name.now.text decls.now.enumerations) }
    {
        self.only_cases.named(&name.text)
    }

    /// The item of that name of a scope, with its number.
    pub fn item<'a>(&self, decls: &'a Decls, scope: u32, name: &Text) -> Option<(u32, &'a ItemDecl)>
        requires { AreTablesOf decls.now self.now }
        ensures { shown result ≡ item_named name.now (scope_items decls.now scope) }
    {
        let Some(declared) = decls.scopes.get(scope as usize) else {
            return None;
        };
        found(self.items.at(scope as usize), &declared.items, name)
    }

    /// The output of that name of a scope, with its number among the outputs and its type.
    pub fn output<'a>(&self, decls: &'a Decls, scope: u32, name: &Text) -> Option<(u32, &'a Ty)>
        requires { AreTablesOf decls.now self.now }
        ensures { shown result ≡ output_named decls.now scope name.now }
    {
        let Some(declared) = decls.scopes.get(scope as usize) else {
            return None;
        };
        match output_in(self.outputs.at(scope as usize), &declared.items, name) {
            Some((number, item)) => Some((number, &item.ty)),
            None => None,
        }
    }
}

/// The output of that name, with its number among the outputs.
fn output_in<'a>(
    outputs: &Outputs,
    items: &'a ItemDecls,
    name: &Text,
) -> Option<(u32, &'a ItemDecl)>
    requires { AreOutputsOf items.now outputs.now }
    ensures { shown result ≡ item_named name.now (outputs_in items.now) }
{
    match outputs.names.number(name) {
        Some(number) => {
            let item = *outputs.items.at(number as usize);
            Some((number, items.at(item as usize)))
        }
        None => None,
    }
}
