// Constants with their types.
ghost use Rattle.std.specs.Prelude.{◌≡◌, [], IfOk, IfErr};
ghost use Rattle.cat_value.specs.Table.{AreHeights};
ghost use Rattle.cat_verify_tables.specs.inside.Causes.{AtLine, Refuses, IsFaulty};
ghost use Rattle.cat_verify_tables.specs.inside.Entries.{AreTold};
ghost use Rattle.cat_verify_tables.specs.inside.ConstantWords.{AreHeightsOf, IsConstantBy, IsWrongConstantBy};

use crate::TableRefusal;
use crate::lines::needed;
use crate::numbers::behind;
use crate::plain_values::value_of;
use crate::types::TypeNames;
use cat_code::{Constant, Constants};
use cat_image::ImageConstant;
use cat_json::InputRefusal;
use cat_value::{Decls, HIGHEST, TypeHeights};
use std::alloc::Global;

/// Declarations with the names and the heights of their types.
#[derive(Drop)]
pub(crate) struct Typing<'a> {
    pub decls: &'a Decls,
    pub types: &'a TypeNames,
    pub heights: &'a TypeHeights,
}

impl<'a> Typing<'a> {
    fn constant(
        &self,
        alloc: Global,
        line: &ImageConstant,
        number: usize,
    ) -> Result<Constant, TableRefusal>
        requires { AreHeightsOf self.now }
        ensures told { IfOk result (IsConstantBy self.now line.now) }
        ensures cause { IfErr result (AtLine number (IsWrongConstantBy self.now line.now)) }
    {
        let ty = self.types.needed_ty(alloc, line.ty.as_str(), number)?;
        let decls = self.decls;
        let height = self
            .heights
            .height(&decls.structures, &decls.enumerations, &ty);
        needed(height <= HIGHEST, number)?;
        match value_of(alloc, line.value.as_str(), &ty, decls) {
            Ok(value) => Ok(Constant { ty, value }),
            Err(InputRefusal::Memory) => Err(TableRefusal::Memory),
            Err(_) => Err(TableRefusal::BadTable(number)),
        }
    }

    /// Constants, the first of which has that line.
    pub fn constants(
        &self,
        alloc: Global,
        lines: &[ImageConstant],
        first: usize,
    ) -> Result<Constants, TableRefusal>
        requires { AreHeightsOf self.now }
        ensures told { IfOk result (AreTold (λ _. IsConstantBy self.now) [] lines.now) }
        ensures cause { IfErr result (Refuses (IsFaulty (λ _. IsWrongConstantBy self.now) first lines.now)) }
    {
        let mut constants = Constants::new(alloc);
        for (at, line) in lines.iter().enumerate() {
            let number = behind(first, at)?;
            let made = self.constant(alloc, line, number)?;
            constants.push(made)?;
        }
        Ok(constants)
    }
}
