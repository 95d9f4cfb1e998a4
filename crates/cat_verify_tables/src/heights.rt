// That no declared type is too high.
ghost use Rattle.std.specs.Prelude.{◌≡◌, IfOk, IfErr};
ghost use Rattle.std.specs.Bool.{MatchBool};
ghost use Rattle.cat_scope.specs.Names.{AllHave};
ghost use Rattle.cat_verify_tables.specs.inside.Causes.{Refuses, IsFaultyIn};
ghost use Rattle.cat_verify_tables.specs.inside.HighWords.{AreMeasures, height_in, IsLowPart, IsHighPart};
ghost use Rattle.cat_verify_tables.specs.inside.HighWords.{IsLowContent, IsHighContent, AreLowFields, HasHighField};
ghost use Rattle.cat_verify_tables.specs.inside.HighWords.{AreLowCases, HasHighCase, IsLowType, IsHighType};
ghost use Rattle.cat_verify_tables.specs.inside.HighWords.{IsLowItem, IsHighItem, HasHighType, AreLowItems};
ghost use Rattle.cat_verify_tables.specs.inside.HighWords.{HasHighItem};
ghost use Rattle.cat_verify_tables.specs.inside.Ordering.{fields_of, cases_of, items_of};

use crate::TableRefusal;
use crate::numbers::{behind, past};
use cat_value::{
    Enumeration, Enumerations, HIGHEST, ItemDecl, Scope, Structure, Structures, Ty, TypeHeights,
};

/// The heights of structures and enumerations.
#[derive(Drop)]
pub(crate) struct Measures<'a> {
    pub structures: &'a Structures,
    pub enumerations: &'a Enumerations,
    pub heights: TypeHeights,
}

impl<'a> Measures<'a> {
    fn height(&self, ty: &Ty) -> u32
        requires { AreMeasures self.now }
        ensures { result ≡ height_in self.now ty.now }
    {
        self.heights.height(self.structures, self.enumerations, ty)
    }

    /// Whether a structure or an enumeration with a part of that type is no higher than a type may be.
    fn is_low_part(&self, ty: &Ty) -> bool
        requires { AreMeasures self.now }
        ensures { MatchBool result (IsLowPart self.now ty.now) (IsHighPart self.now ty.now) }
    {
        if self.height(ty) >= HIGHEST {
            return false;
        }
        true
    }

    fn is_low_content(&self, content: &Option<Ty>) -> bool
        requires { AreMeasures self.now }
        ensures { MatchBool result (IsLowContent self.now content.now) (IsHighContent self.now content.now) }
    {
        match content {
            Some(ty) => self.is_low_part(ty),
            None => true,
        }
    }

    fn is_low_type(&self, ty: &Ty) -> bool
        requires { AreMeasures self.now }
        ensures { MatchBool result (IsLowType self.now ty.now) (IsHighType self.now ty.now) }
    {
        if self.height(ty) > HIGHEST {
            return false;
        }
        true
    }

    fn are_low_types(&self, types: &[Ty]) -> bool
        requires { AreMeasures self.now }
        ensures { MatchBool result (AllHave (IsLowType self.now) types.now) (HasHighType self.now types.now) }
    {
        for ty in types {
            if !self.is_low_type(ty) {
                return false;
            }
        }
        true
    }

    fn is_low_item(&self, item: &ItemDecl) -> bool
        requires { AreMeasures self.now }
        ensures { MatchBool result (IsLowItem self.now item.now) (IsHighItem self.now item.now) }
    {
        if !self.is_low_type(&item.ty) {
            return false;
        }
        if !self.are_low_types(item.params.as_slice()) {
            return false;
        }
        true
    }

    /// Refuses a structure that begins at that line and has a field that is too high.
    fn refuse_fields(&self, structure: &Structure, first: usize) -> Result<(), TableRefusal>
        requires { AreMeasures self.now }
        ensures low { IfOk result (λ _. AreLowFields self.now structure.now) }
        ensures cause { IfErr result (Refuses (HasHighField self.now structure.now first)) }
    {
        let mut line = behind(first, 1)?;
        for field in structure.fields.as_slice() {
            if !self.is_low_part(&field.ty) {
                return Err(TableRefusal::BadTable(line));
            }
            line = behind(line, 1)?;
        }
        Ok(())
    }

    /// The same of an enumeration.
    fn refuse_cases(&self, enumeration: &Enumeration, first: usize) -> Result<(), TableRefusal>
        requires { AreMeasures self.now }
        ensures low { IfOk result (λ _. AreLowCases self.now enumeration.now) }
        ensures cause { IfErr result (Refuses (HasHighCase self.now enumeration.now first)) }
    {
        let mut line = behind(first, 1)?;
        for case in enumeration.cases.as_slice() {
            if !self.is_low_content(&case.content) {
                return Err(TableRefusal::BadTable(line));
            }
            line = behind(line, 1)?;
        }
        Ok(())
    }

    /// Refuses a scope that begins at that line and has an item that is too high.
    fn refuse_items(&self, scope: &Scope, first: usize) -> Result<(), TableRefusal>
        requires { AreMeasures self.now }
        ensures low { IfOk result (λ _. AreLowItems self.now scope.now) }
        ensures cause { IfErr result (Refuses (HasHighItem self.now scope.now first)) }
    {
        let mut line = behind(first, 1)?;
        for item in scope.items.as_slice() {
            if !self.is_low_item(item) {
                return Err(TableRefusal::BadTable(line));
            }
            line = behind(line, 1)?;
        }
        Ok(())
    }

    /// Refuses structures the first of which begins at that line.
    pub fn refuse_structures(&self, entries: &[Structure], first: usize) -> Result<(), TableRefusal>
        requires { AreMeasures self.now }
        ensures low { IfOk result (λ _. AllHave (AreLowFields self.now) entries.now) }
        ensures cause { IfErr result (Refuses (IsFaultyIn fields_of (λ _. HasHighField self.now)
            first entries.now)) }
    {
        let mut line = first;
        for structure in entries {
            self.refuse_fields(structure, line)?;
            line = past(line, structure.fields.len())?;
        }
        Ok(())
    }

    /// The same of enumerations.
    pub fn refuse_enumerations(
        &self,
        entries: &[Enumeration],
        first: usize,
    ) -> Result<(), TableRefusal>
        requires { AreMeasures self.now }
        ensures low { IfOk result (λ _. AllHave (AreLowCases self.now) entries.now) }
        ensures cause { IfErr result (Refuses (IsFaultyIn cases_of (λ _. HasHighCase self.now)
            first entries.now)) }
    {
        let mut line = first;
        for enumeration in entries {
            self.refuse_cases(enumeration, line)?;
            line = past(line, enumeration.cases.len())?;
        }
        Ok(())
    }

    /// The same of scopes.
    pub fn refuse_scopes(&self, entries: &[Scope], first: usize) -> Result<(), TableRefusal>
        requires { AreMeasures self.now }
        ensures low { IfOk result (λ _. AllHave (AreLowItems self.now) entries.now) }
        ensures cause { IfErr result (Refuses (IsFaultyIn items_of (λ _. HasHighItem self.now)
            first entries.now)) }
    {
        let mut line = first;
        for scope in entries {
            self.refuse_items(scope, line)?;
            line = past(line, scope.items.len())?;
        }
        Ok(())
    }
}
