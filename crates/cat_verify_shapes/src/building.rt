// The table of the types that declarations and constants have, and what instructions add to it.
ghost use Rattle.std.specs.Prelude.{◌≡◌, ◌+◌, [], true, length, slice_get, slice_set, Some, IfOk, IfSome, IsTrue, OnOk};
ghost use Rattle.std.specs.List.{list_all};
ghost use Rattle.cat_value.specs.Inputs.{outputs_in};
ghost use Rattle.cat_scope.specs.Names.{AllHave};
ghost use Rattle.cat_code.specs.Forms.{Fields, form_of, forms_in, items_forms};
ghost use Rattle.cat_code.specs.Valid.{constant_is_sound};
ghost use Rattle.cat_verify_shapes.specs.inside.Senses.{Grows, IsLow, IsTable};
ghost use Rattle.cat_verify_shapes.specs.inside.Growing.{Adds, AddsOutput, AddsType, HasKind, IsNumber, is_row};

use crate::forms::{Form, Forms};
use crate::looping::collected_in;
use crate::shape::Shape;
use cat_code::{Instr, Tables};
use cat_pos::List;
use cat_value::{Decls, Enumeration, Field, ItemDecl, Scope, Ty};
use indexmap::IndexSet;
use std::alloc::{AllocError, Global};

/// Whether these are types in a row.
fn is_row(form: Form) -> bool
    ensures { result ≡ is_row form }
{
    match form {
        Form::Last | Form::More(_, _) => true,
        _ => false,
    }
}

impl Forms {
    /// Whether a number is that of a type, or of types in a row where that is asked.
    fn is_number(&self, number: u32, asks_row: bool) -> bool
        ensures { result ≡ true → IsNumber self.now number asks_row }
    {
        let Some(&form) = self.kinds.get_index(number as usize) else {
            return false;
        };
        if asks_row {
            return is_row(form);
        }
        !is_row(form)
    }

    /// Whether the parts of a type stand in the table.
    fn has_parts(&self, form: Form) -> bool
        ensures { result ≡ true → HasKind self.now form }
    {
        match form {
            Form::Many(element) => self.is_number(element, false),
            Form::Fields(row) => self.is_number(row, true),
            Form::More(first, others) => {
                self.is_number(first, false) && self.is_number(others, true)
            }
            _ => true,
        }
    }

    /// Adds a type, where it isn't there: its number.
    pub fn add(&mut self, form: Form) -> Result<u32, AllocError>
        ensures { IfOk result (Adds self.old self.new form) }
    {
        if !self.has_parts(form) {
            return Err(AllocError);
        }
        let Ok((index, _)) = self.kinds.insert_full(form) else {
            return Err(AllocError);
        };
        let Ok(number) = u32::try_from(index) else {
            return Err(AllocError);
        };
        Ok(number)
    }

    fn add_ty(&mut self, decls: &Decls, ty: &Ty) -> Result<u32, AllocError>
        requires { IsLow decls.now ty.now }
        ensures { IfOk result (AddsType decls.now self.old self.new (form_of decls.now ty.now)) }
    {
        match ty {
            Ty::Boolean => self.add(Form::Truth),
            Ty::Integer => self.add(Form::Whole),
            Ty::Decimal => self.add(Form::Fraction),
            Ty::Money => self.add(Form::Amount),
            Ty::Date => self.add(Form::Day),
            Ty::Duration => self.add(Form::Span),
            Ty::List(element) => {
                let element = self.add_ty(decls, element.get())?;
                self.add(Form::Many(element))
            }
            Ty::Structure(structure) => self.of_structure(*structure),
            Ty::Enumeration(enumeration) => self.add(Form::OneOf(*enumeration)),
        }
    }

    /// Adds the types of fields in a row.
    fn add_fields(&mut self, decls: &Decls, fields: &[Field]) -> Result<u32, AllocError>
        requires { AllHave (λ field. IsLow decls.now field.ty) fields.now }
        ensures { IfOk result (AddsType decls.now self.old self.new
            (Fields (forms_in (form_of decls.now) fields.now))) }
    {
        let mut row = self.add(Form::Last)?;
        let mut left = fields.len();
        while left > 0 {
            left -= 1;
            let form = self.add_ty(decls, &fields[left].ty)?;
            row = self.add(Form::More(form, row))?;
        }
        self.add(Form::Fields(row))
    }

    /// Adds the types of outputs in a row.
    fn add_outputs(&mut self, decls: &Decls, items: &[ItemDecl]) -> Result<u32, AllocError>
        requires { AllHave (λ item. IsLow decls.now item.ty) items.now }
        ensures { IfOk result (AddsType decls.now self.old self.new
            (Fields (items_forms decls.now (outputs_in items.now)))) }
    {
        let mut row = self.add(Form::Last)?;
        let mut left = items.len();
        while left > 0 {
            left -= 1;
            row = self.add_output(decls, &items[left], row)?;
        }
        self.add(Form::Fields(row))
    }

    /// Adds the type of an item in front of a row, where the item is an output.
    fn add_output(&mut self, decls: &Decls, item: &ItemDecl, row: u32) -> Result<u32, AllocError>
        requires { IsLow decls.now item.now.ty }
        ensures { IfOk result (AddsOutput decls.now self.old self.new item.now row) }
    {
        if !item.kind.is_output() {
            return Ok(row);
        }
        let form = self.add_ty(decls, &item.ty)?;
        self.add(Form::More(form, row))
    }
}

/// The types without parts.
const FLAT: [Form; 7] = [
    Form::Truth,
    Form::Whole,
    Form::Fraction,
    Form::Amount,
    Form::Day,
    Form::Span,
    Form::Last,
];

impl Forms {
    fn add_structures(&mut self, decls: &Decls, order: &[u32]) -> Result<(), AllocError>
        requires { IsTable decls.now self.old }
        ensures { OnOk result (IsTable decls.now self.new × (self.new.outputs ≡ self.old.outputs)) }
    {
        for &number in order {
            self.add_structure(decls, number)?;
        }
        Ok(())
    }

    fn add_structure(&mut self, decls: &Decls, number: u32) -> Result<(), AllocError>
        requires { IsTable decls.now self.old }
        ensures { OnOk result (IsTable decls.now self.new × (self.new.outputs ≡ self.old.outputs)) }
    {
        let Some(structure) = decls.structures.get(number as usize) else {
            return Ok(());
        };
        let form = self.add_fields(decls, structure.fields.as_slice())?;
        self.name_structure(number as usize, form);
        Ok(())
    }

    /// Names the type of a structure, where the table has a place for it.
    fn name_structure(&mut self, number: usize, form: u32)
        ensures { self.new ≡ record self.old { structures = slice_set self.old.structures number (Some form) } }
    {
        if number < self.structures.len() {
            self.structures.set(number, Some(form));
        }
    }

    fn add_enumeration(&mut self, decls: &Decls, number: usize) -> Result<(), AllocError>
        ensures { OnOk result (Grows self.old self.new) }
    {
        let Some(enumeration) = decls.enumerations.get(number) else {
            return Ok(());
        };
        self.add_cases(decls, number, enumeration)
    }

    /// Adds an enumeration with what its cases hold.
    fn add_cases(
        &mut self,
        decls: &Decls,
        number: usize,
        enumeration: &Enumeration,
    ) -> Result<(), AllocError>
        requires { AllHave (λ c. IfSome c.content (IsLow decls.now)) enumeration.now.cases }
        ensures { OnOk result (Grows self.old self.new) }
    {
        let Ok(number) = u32::try_from(number) else {
            return Err(AllocError);
        };
        self.add(Form::OneOf(number))?;
        for case in enumeration.cases.as_slice() {
            let Some(content) = &case.content else {
                continue;
            };
            self.add_ty(decls, content)?;
        }
        Ok(())
    }

    fn add_tys(&mut self, decls: &Decls, tys: &[Ty]) -> Result<(), AllocError>
        requires { AllHave (IsLow decls.now) tys.now }
        ensures { OnOk result (Grows self.old self.new) }
    {
        for ty in tys {
            self.add_ty(decls, ty)?;
        }
        Ok(())
    }

    fn add_scope(&mut self, decls: &Decls, scope: &Scope) -> Result<(), AllocError>
        requires table { IsTable decls.now self.old }
        requires here { slice_get decls.now.scopes (length self.old.outputs) ≡ Some scope.now }
        ensures { OnOk result (IsTable decls.now self.new × (length self.new.outputs ≡ length self.old.outputs + 1)) }
    {
        for item in scope.items.as_slice() {
            self.add_ty(decls, &item.ty)?;
            self.add_tys(decls, item.params.as_slice())?;
        }
        let outputs = self.add_outputs(decls, scope.items.as_slice())?;
        self.outputs.push(outputs)
    }

    /// The table of the types of declarations and constants. Structures are named behind their parts in this order.
    pub fn of(alloc: Global, tables: &Tables, order: &[u32]) -> Result<Forms, AllocError>
        requires { IsTrue (list_all (constant_is_sound tables.now.decls) tables.now.constants) }
        ensures { IfOk result (IsTable tables.now.decls) }
    {
        let decls = tables.decls.get();
        let mut structures = List::new(alloc);
        for _ in 0..decls.structures.len() {
            structures.push(None)?;
        }
        let mut forms = Forms {
            alloc,
            kinds: IndexSet::new(alloc),
            structures,
            outputs: List::new(alloc),
        };
        forms.add_all(tables, order)?;
        Ok(forms)
    }

    fn add_all(&mut self, tables: &Tables, order: &[u32]) -> Result<(), AllocError>
        requires constants { IsTrue (list_all (constant_is_sound tables.now.decls) tables.now.constants) }
        requires table { IsTable tables.now.decls self.old }
        requires none { self.old.outputs ≡ [] }
        ensures { OnOk result (IsTable tables.now.decls self.new) }
    {
        let decls = tables.decls.get();
        self.add_flat()?;
        self.add_structures(decls, order)?;
        self.add_enumerations(decls)?;
        self.add_scopes(decls)?;
        for constant in tables.constants.as_slice() {
            self.add_ty(decls, &constant.ty)?;
        }
        Ok(())
    }

    fn add_flat(&mut self) -> Result<(), AllocError>
        ensures { OnOk result (Grows self.old self.new) }
    {
        for form in FLAT {
            self.add(form)?;
        }
        Ok(())
    }

    fn add_enumerations(&mut self, decls: &Decls) -> Result<(), AllocError>
        ensures { OnOk result (Grows self.old self.new) }
    {
        for number in 0..decls.enumerations.len() {
            self.add_enumeration(decls, number)?;
        }
        Ok(())
    }

    fn add_scopes(&mut self, decls: &Decls) -> Result<(), AllocError>
        requires table { IsTable decls.now self.old }
        requires none { self.old.outputs ≡ [] }
        ensures { OnOk result (IsTable decls.now self.new) }
    {
        for scope in decls.scopes.as_slice() {
            self.add_scope(decls, scope)?;
        }
        Ok(())
    }

    /// Adds the row of so many types on top.
    fn add_row(&mut self, shape: &Shape, count: u32) -> Result<(), AllocError>
        ensures { OnOk result (Grows self.old self.new) }
    {
        let operands = shape.operands.from_below();
        let first = operands.len().saturating_sub(count as usize);
        let mut row = self.add(Form::Last)?;
        let mut left = operands.len();
        while left > first {
            left -= 1;
            row = self.add(Form::More(operands[left], row))?;
        }
        self.add(Form::Fields(row))?;
        Ok(())
    }

    /// Adds the type that an instruction gives, where no declaration has it.
    pub fn prepare(&mut self, shape: &Shape, instr: Instr) -> Result<(), AllocError>
        ensures { OnOk result (Grows self.old self.new) }
    {
        match instr {
            Instr::Pack(count) => self.add_row(shape, count),
            Instr::List(_) => self.add_many(shape.operands.top().copied()),
            Instr::Next(_) => self.add_many(collected_in(shape)),
            _ => Ok(()),
        }
    }

    /// Adds the list of a type.
    fn add_many(&mut self, element: Option<u32>) -> Result<(), AllocError>
        ensures { OnOk result (Grows self.old self.new) }
    {
        if let Some(element) = element {
            self.add(Form::Many(element))?;
        }
        Ok(())
    }
}
