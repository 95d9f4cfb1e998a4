// The types that shapes speak of, as numbers: equal ones have one number.
ghost use Rattle.std.specs.Prelude.{◌≡◌, true, Some, slice_get, IfOk};
ghost use Rattle.cat_code.specs.Forms as code;
ghost use Rattle.cat_code.specs.Places.{held_form};
ghost use Rattle.cat_verify_shapes.specs.inside.Senses.{IsLow, Stands, StandsIn};

use cat_pos::{List, Numbers};
use cat_value::{Decls, ItemDecl, Kind, Ty};
use indexmap::IndexSet;
use std::alloc::{AllocError, Global};

/// A type, whose parts are told by their numbers. That of a structure is the list of those of its fields.
#[derive(Clone, Copy, PartialEq, Eq, Hash)]
pub(crate) enum Form {
    Truth,
    Whole,
    Fraction,
    Amount,
    Day,
    Span,
    Many(u32),
    Fields(u32),
    OneOf(u32),
    /// No types.
    Last,
    /// A type in front of others.
    More(u32, u32),
}

/// The number that a type without parts has, since these are added first.
#[inline(always)]
fn flat_number(form: Form) -> u32 {
    match form {
        Form::Truth => 0,
        Form::Whole => 1,
        Form::Fraction => 2,
        Form::Amount => 3,
        Form::Day => 4,
        _ => 5,
    }
}

/// The table of types, with those of structures, by number, and those of the outputs of scopes.
#[derive(Drop)]
pub(crate) struct Forms {
    pub alloc: Global,
    pub kinds: IndexSet<Form>,
    pub structures: List<Option<u32>>,
    pub outputs: Numbers,
}

impl Forms {
    /// The type of a number, which stands in the table.
    pub fn get(&self, number: u32) -> Result<Form, AllocError>
        ensures { IfOk result (λ form. slice_get self.now.kinds.keys number ≡ Some form) }
    {
        match self.kinds.get_index(number as usize) {
            Some(form) => Ok(*form),
            None => Err(AllocError),
        }
    }

    #[inline(always)]
    fn stands_at(&self, number: u32, form: Form) -> bool
        ensures { result ≡ true → slice_get self.now.kinds.keys number ≡ Some form }
    {
        match self.kinds.get_index(number as usize) {
            Some(found) => *found == form,
            None => false,
        }
    }

    /// The number of a type, which stands in the table. One without parts is looked for first where it was added.
    #[inline(always)]
    pub fn find(&self, form: Form) -> Result<u32, AllocError>
        ensures { IfOk result (λ number. slice_get self.now.kinds.keys number ≡ Some form) }
    {
        let flat = flat_number(form);
        if self.stands_at(flat, form) {
            return Ok(flat);
        }
        let Some(index) = self.kinds.get_index_of(&form) else {
            return Err(AllocError);
        };
        let Ok(number) = u32::try_from(index) else {
            return Err(AllocError);
        };
        Ok(number)
    }

    /// The number of a declared type.
    pub fn of_ty(&self, decls: &Decls, ty: &Ty) -> Result<u32, AllocError>
        requires { IsLow decls.now ty.now }
        ensures { IfOk result (λ number. Stands decls.now self.now number (code.form_of decls.now ty.now)) }
    {
        match ty {
            Ty::Boolean => self.find(Form::Truth),
            Ty::Integer => self.find(Form::Whole),
            Ty::Decimal => self.find(Form::Fraction),
            Ty::Money => self.find(Form::Amount),
            Ty::Date => self.find(Form::Day),
            Ty::Duration => self.find(Form::Span),
            Ty::List(element) => {
                let element = self.of_ty(decls, element.get())?;
                self.find(Form::Many(element))
            }
            Ty::Structure(structure) => self.of_structure(*structure),
            Ty::Enumeration(enumeration) => self.find(Form::OneOf(*enumeration)),
        }
    }

    pub fn of_structure(&self, structure: u32) -> Result<u32, AllocError>
        ensures { IfOk result (λ number. slice_get self.now.structures structure ≡ Some (Some number)) }
    {
        match self.structures.get(structure as usize) {
            Some(Some(number)) => Ok(*number),
            _ => Err(AllocError),
        }
    }

    /// What a scope gives.
    pub fn of_outputs(&self, scope: u32) -> Result<u32, AllocError>
        ensures { IfOk result (λ number. slice_get self.now.outputs scope ≡ Some number) }
    {
        match self.outputs.get(scope as usize) {
            Some(number) => Ok(*number),
            None => Err(AllocError),
        }
    }

    /// What the slot of an item holds.
    pub fn of_item(&self, decls: &Decls, item: &ItemDecl) -> Result<u32, AllocError>
        requires { IsLow decls.now item.now.ty }
        ensures { IfOk result (λ number. Stands decls.now self.now number (code.item_form decls.now item.now)) }
    {
        match item.kind {
            Kind::Called(scope) => self.of_outputs(scope),
            _ => self.of_ty(decls, &item.ty),
        }
    }

    /// What a variable's definitions give: a boolean of a condition.
    pub fn of_held(&self, decls: &Decls, item: &ItemDecl) -> Result<u32, AllocError>
        requires { IsLow decls.now item.now.ty }
        ensures { IfOk result
            (λ number. StandsIn decls.now self.now (Some number) (held_form decls.now (Some item.now))) }
    {
        if item.condition {
            return self.find(Form::Truth);
        }
        self.of_ty(decls, &item.ty)
    }
}
