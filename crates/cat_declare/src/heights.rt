// That no declared type is too high.
ghost use Rattle.std.specs.Prelude.{◌≡◌, ◌<◌, ◌++◌, ◌&&◌, [], not, nat_le, IfOk, IfErr, OnOk, length, map, flat_map};
ghost use Rattle.std.specs.Prelude.{option_to_list};
ghost use Rattle.cat_value.specs.declared.ty.Ty.TheVariants as flat;
ghost use Rattle.cat_value.specs.Declarations.{highest};
ghost use Rattle.cat_value.specs.Heights.{height_to, highest_field, highest_content};
ghost use Rattle.cat_names.specs.Heights as words;
ghost use Rattle.cat_names.specs.Lookup.{nested_list};
ghost use Rattle.cat_names.specs.Accepted.{IsParsed};
ghost use Rattle.cat_names.specs.NameFaults.{name_faults};
ghost use Rattle.cat_declare.specs.Cause.{HasCause};
ghost use Rattle.cat_declare.specs.inside.Cycling.{HasOrder};
ghost use Rattle.cat_declare.specs.inside.Made.{made, whole};
ghost use Rattle.cat_declare.specs.inside.Measuring.{AreMeasures, measured, types_measured};
ghost use Rattle.cat_declare.specs.inside.Parted.{IsMadeOf, declared_by};
ghost use Rattle.cat_declare.specs.inside.Tabling.{AreTables, tree_at};

use crate::build::Parts;
use crate::reply::clear;
use crate::tables::TreeTables;
use crate::types::base_of;
use crate::written::Declaration;
use cat_check_names::Faults;
use cat_names::{Fault, Refusal};
use cat_order::a_cycle_leaves_no_order;
use cat_pos::{ENTRIES_BOUND, List};
use cat_tree::{CaseItem, FieldItem, Item, Type, Variable};
use cat_value::{Case, Field, HIGHEST, Ty, TypeHeights};
use std::alloc::{AllocError, Global};

/// The heights of what was made of a tree.
#[derive(Drop)]
pub struct Measures<'a> {
    pub tables: &'a TreeTables<'a>,
    pub parts: &'a Parts,
    pub heights: TypeHeights,
}

impl<'a> Measures<'a> {
    fn is_high(&self, ty: &Ty) -> bool
        requires { AreMeasures self.now }
        ensures { result ≡ words.is_high (measured self.now) ty.now }
    {
        let parts = self.parts;
        self.heights
            .height(&parts.structures, &parts.enumerations, ty)
            > HIGHEST
    }

    fn are_low_fields(&self, fields: &[Field]) -> bool
        requires { AreMeasures self.now }
        ensures { result ≡ nat_le (highest_field (height_to (measured self.now).structures
            (measured self.now).enumerations highest) fields.now) highest }
    {
        for field in fields {
            if self.is_high(&field.ty) {
                return false;
            }
        }
        true
    }

    fn are_low_cases(&self, cases: &[Case]) -> bool
        requires { AreMeasures self.now }
        ensures { result ≡ nat_le (highest_content (height_to (measured self.now).structures
            (measured self.now).enumerations highest) cases.now) highest }
    {
        for case in cases {
            let Some(content) = &case.content else {
                continue;
            };
            if self.is_high(content) {
                return false;
            }
        }
        true
    }

    /// Whether a structure is too high, though no field is.
    fn is_first_structure(&self, number: u32) -> bool
        requires { AreMeasures self.now }
        ensures { result ≡ (words.is_high (measured self.now) (flat.Structure number)
            && words.has_low_parts (measured self.now) (flat.Structure number)) }
    {
        if !self.is_high(&Ty::Structure(number)) {
            return false;
        }
        let parts = self.parts;
        match parts.structures.get(number as usize) {
            Some(structure) => self.are_low_fields(structure.fields.as_slice()),
            None => true,
        }
    }

    /// Whether an enumeration is too high, though no content is.
    fn is_first_enumeration(&self, number: u32) -> bool
        requires { AreMeasures self.now }
        ensures { result ≡ (words.is_high (measured self.now) (flat.Enumeration number)
            && words.has_low_parts (measured self.now) (flat.Enumeration number)) }
    {
        if !self.is_high(&Ty::Enumeration(number)) {
            return false;
        }
        let parts = self.parts;
        match parts.enumerations.get(number as usize) {
            Some(enumeration) => self.are_low_cases(enumeration.cases.as_slice()),
            None => true,
        }
    }

    /// Structures that are too high.
    fn add_structures(
        &self,
        structures: &[Declaration<FieldItem>],
        faults: &mut Faults,
    ) -> Result<(), AllocError>
        requires measures { AreMeasures self.now }
        requires few { length structures.now < ENTRIES_BOUND }
        ensures { OnOk result (faults.new ≡ faults.old
            ++ words.high_named (measured self.now) flat.Structure (map (λ d. d.name.now) structures.now)) }
    {
        for (number, structure) in structures.iter().enumerate() {
            if !self.is_first_structure(number as u32) {
                continue;
            }
            faults.push(Fault::TooMany(structure.name.pos))?;
        }
        Ok(())
    }

    /// Enumerations that are too high.
    fn add_enumerations(
        &self,
        enumerations: &[Declaration<CaseItem>],
        faults: &mut Faults,
    ) -> Result<(), AllocError>
        requires measures { AreMeasures self.now }
        requires few { length enumerations.now < ENTRIES_BOUND }
        ensures { OnOk result (faults.new ≡ faults.old
            ++ words.high_named (measured self.now) flat.Enumeration (map (λ d. d.name.now) enumerations.now)) }
    {
        for (number, enumeration) in enumerations.iter().enumerate() {
            if !self.is_first_enumeration(number as u32) {
                continue;
            }
            faults.push(Fault::TooMany(enumeration.name.pos))?;
        }
        Ok(())
    }

    /// Whether a type behind so many `list of` is too high, though it is not.
    fn is_high_list(&self, lists: usize, base: &Ty) -> bool
        requires { AreMeasures self.now }
        ensures { result ≡ (words.is_high (measured self.now) (nested_list lists base.now)
            && not (words.is_high (measured self.now) base.now)) }
    {
        let parts = self.parts;
        let height = self
            .heights
            .height(&parts.structures, &parts.enumerations, base);
        height <= HIGHEST && lists > (HIGHEST - height) as usize
    }

    /// A written type, where it is a list that is too high.
    fn add_list(&self, ty: &Type, faults: &mut Faults) -> Result<(), AllocError>
        requires { AreMeasures self.now }
        ensures { OnOk result (faults.new ≡ faults.old
            ++ words.high_list (measured self.now) (types_measured self.now) ty.now) }
    {
        let Some(base) = base_of(self.tables, &ty.base) else {
            return Ok(());
        };
        if !self.is_high_list(ty.lists, &base) {
            return Ok(());
        }
        faults.push(Fault::TooMany(ty.pos))
    }

    /// Fields, or parameters.
    fn add_fields(&self, fields: &[FieldItem], faults: &mut Faults) -> Result<(), AllocError>
        requires { AreMeasures self.now }
        ensures { OnOk result (faults.new ≡ faults.old
            ++ flat_map (λ f. words.high_list (measured self.now) (types_measured self.now) f.ty) fields.now) }
    {
        for field in fields {
            self.add_list(&field.ty, faults)?;
        }
        Ok(())
    }

    /// A type, where one is written.
    fn add_content(&self, content: &Option<Type>, faults: &mut Faults) -> Result<(), AllocError>
        requires { AreMeasures self.now }
        ensures { OnOk result (faults.new ≡ faults.old
            ++ flat_map (words.high_list (measured self.now) (types_measured self.now)) (option_to_list content.now)) }
    {
        match content {
            Some(ty) => self.add_list(ty, faults),
            None => Ok(()),
        }
    }

    /// Cases.
    fn add_cases(&self, cases: &[CaseItem], faults: &mut Faults) -> Result<(), AllocError>
        requires { AreMeasures self.now }
        ensures { OnOk result (faults.new ≡ faults.old
            ++ flat_map (λ c. flat_map (words.high_list (measured self.now) (types_measured self.now))
            (option_to_list c.content)) cases.now) }
    {
        for case in cases {
            self.add_content(&case.content, faults)?;
        }
        Ok(())
    }

    /// A variable of a scope.
    fn add_variable(&self, variable: &Variable, faults: &mut Faults) -> Result<(), AllocError>
        requires { AreMeasures self.now }
        ensures { OnOk result (faults.new ≡ faults.old
            ++ flat_map (words.high_list (measured self.now) (types_measured self.now))
            (words.variable_types variable.now)) }
    {
        match variable {
            Variable::Own(_, _, _, ty, params) => {
                self.add_content(ty, faults)?;
                self.add_fields(params.as_slice(), faults)
            }
            Variable::Called(_, _) => Ok(()),
        }
    }

    /// Variables of a scope.
    fn add_variables(&self, variables: &[Variable], faults: &mut Faults) -> Result<(), AllocError>
        requires { AreMeasures self.now }
        ensures { OnOk result (faults.new ≡ faults.old
            ++ flat_map (λ v. flat_map (words.high_list (measured self.now) (types_measured self.now))
            (words.variable_types v)) variables.now) }
    {
        for variable in variables {
            self.add_variable(variable, faults)?;
        }
        Ok(())
    }

    /// A declaration.
    fn add_item(&self, item: &Item, faults: &mut Faults) -> Result<(), AllocError>
        requires { AreMeasures self.now }
        ensures { OnOk result (faults.new ≡ faults.old
            ++ flat_map (words.high_list (measured self.now) (types_measured self.now))
            (words.types_written item.now)) }
    {
        match item {
            Item::Structure(_, _, fields) => self.add_fields(fields.as_slice(), faults),
            Item::Enumeration(_, _, cases) => self.add_cases(cases.as_slice(), faults),
            Item::Scope(_, _, variables) => self.add_variables(variables.as_slice(), faults),
            Item::Block(_) => Ok(()),
        }
    }

    /// Lists that are too high.
    fn add_lists(&self, items: &[Item], faults: &mut Faults) -> Result<(), AllocError>
        requires { AreMeasures self.now }
        ensures { OnOk result (faults.new ≡ faults.old
            ++ flat_map (λ i. flat_map (words.high_list (measured self.now) (types_measured self.now))
            (words.types_written i)) items.now) }
    {
        for item in items {
            self.add_item(item, faults)?;
        }
        Ok(())
    }
}

/// The declared types that are too high.
fn high_types(alloc: Global, tables: &TreeTables, parts: &Parts) -> Result<Faults, AllocError>
    requires tables { AreTables tables.now }
    requires few { length (tree_at tables.now).items < ENTRIES_BOUND }
    ensures { IfOk result (λ faults. faults ≡ words.height_faults (tree_at tables.now) (declared_by parts.now)) }
{
    let heights = TypeHeights::of(alloc, &parts.structures, &parts.enumerations)?;
    let measures = Measures {
        tables,
        parts,
        heights,
    };
    let declarations = &tables.declarations;
    let tree = declarations.tree;
    let mut faults = List::new(alloc);
    measures.add_structures(declarations.structures.as_slice(), &mut faults)?;
    measures.add_enumerations(declarations.enumerations.as_slice(), &mut faults)?;
    measures.add_lists(tree.items.as_slice(), &mut faults)?;
    Ok(faults)
}

/// Refuses where a declared type is too high.
pub fn refuse_high(alloc: Global, tables: &TreeTables, parts: &Parts) -> Result<(), Refusal>
    requires tables { AreTables tables.now }
    requires parsed { IsParsed (tree_at tables.now) }
    requires made { IsMadeOf (tree_at tables.now) parts.now }
    requires none { name_faults (tree_at tables.now) ≡ [] }
    requires order { HasOrder (tree_at tables.now) }
    ensures low { IfOk result (λ _. words.height_faults (tree_at tables.now)
        (made whole (tree_at tables.now).items) ≡ []) }
    ensures cause { IfErr result (HasCause (tree_at tables.now)) }
{
    a_cycle_leaves_no_order();
    let faults = high_types(alloc, tables, parts)?;
    clear(&faults)
}
