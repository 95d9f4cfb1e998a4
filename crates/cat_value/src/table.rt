// A table of the heights of declared types, built level by level.
ghost use Rattle.std.specs.Prelude.{◌≡◌, ◌+◌, ◌≤◌, ◌<◌, IfOk, map, max};
ghost use Rattle.cat_value.specs.Heights.{height_to, content_height, highest_field, highest_content};
ghost use Rattle.cat_value.specs.Declarations.{highest};
ghost use Rattle.cat_value.specs.Table.{AreHeights, AreHeightsTo, height_in};

use crate::{Case, Enumerations, Field, Structures, Ty};
use cat_pos::{List, Numbers};
use std::alloc::{AllocError, Global};

/// No declared type is higher.
pub const HIGHEST: u32 = 64;

/// The heights of structures and of enumerations, by their numbers.
#[derive(Drop)]
pub struct TypeHeights {
    structures: Numbers,
    enumerations: Numbers,
}

impl TypeHeights {
    /// The heights of declared types. It takes time in proportion to the declarations.
    pub fn of(
        alloc: Global,
        structures: &Structures,
        enumerations: &Enumerations,
    ) -> Result<TypeHeights, AllocError>
        ensures { IfOk result (AreHeights structures.now enumerations.now) }
    {
        let mut heights = TypeHeights {
            structures: List::new(alloc),
            enumerations: List::new(alloc),
        };
        for depth in 0..HIGHEST {
            heights = heights.deeper(alloc, structures, enumerations, depth)?;
        }
        Ok(heights)
    }

    /// The height of a type, where one above the highest stands for each greater height. It takes time in proportion to
    /// the lists in it.
    pub fn height(&self, structures: &Structures, enumerations: &Enumerations, ty: &Ty) -> u32
        requires { AreHeights structures.now enumerations.now self.now }
        ensures { result ≡ height_to structures.now enumerations.now highest ty.now }
    {
        self.height_to(structures, enumerations, HIGHEST, ty)
    }

    /// The height of a type, where one above `depth` stands for each greater height.
    #[tactic(auto, using(crate::proofs::Levels::levels))]
    fn height_to(
        &self,
        structures: &Structures,
        enumerations: &Enumerations,
        depth: u32,
        ty: &Ty,
    ) -> u32
        requires heights { AreHeightsTo structures.now enumerations.now depth self.now }
        requires bounded { depth ≤ highest }
        ensures { result ≡ height_to structures.now enumerations.now depth ty.now }
    {
        match ty {
            Ty::List(element) => {
                let height = self.height_to(structures, enumerations, depth, element.get());
                if height > depth { height } else { height + 1 }
            }
            Ty::Structure(structure) => height_in(&self.structures, *structure),
            Ty::Enumeration(enumeration) => height_in(&self.enumerations, *enumeration),
            Ty::Boolean | Ty::Integer | Ty::Decimal | Ty::Money | Ty::Date | Ty::Duration => 1,
        }
    }

    /// The heights that one level more tells apart.
    fn deeper(
        &self,
        alloc: Global,
        structures: &Structures,
        enumerations: &Enumerations,
        depth: u32,
    ) -> Result<TypeHeights, AllocError>
        requires heights { AreHeightsTo structures.now enumerations.now depth self.now }
        requires bounded { depth < highest }
        ensures { IfOk result (AreHeightsTo structures.now enumerations.now (depth + 1)) }
    {
        Ok(TypeHeights {
            structures: self.structure_heights(alloc, structures, enumerations, depth)?,
            enumerations: self.enumeration_heights(alloc, structures, enumerations, depth)?,
        })
    }

    fn structure_heights(
        &self,
        alloc: Global,
        structures: &Structures,
        enumerations: &Enumerations,
        depth: u32,
    ) -> Result<Numbers, AllocError>
        requires heights { AreHeightsTo structures.now enumerations.now depth self.now }
        requires bounded { depth < highest }
        ensures { IfOk result (λ made. made
            ≡ map (λ s. 1 + highest_field (height_to structures.now enumerations.now depth) s.fields) structures.now) }
    {
        let mut made = List::new(alloc);
        for structure in structures.as_slice() {
            let fields = structure.fields.as_slice();
            made.push(1 + self.highest_field(structures, enumerations, depth, fields))?;
        }
        Ok(made)
    }

    fn enumeration_heights(
        &self,
        alloc: Global,
        structures: &Structures,
        enumerations: &Enumerations,
        depth: u32,
    ) -> Result<Numbers, AllocError>
        requires heights { AreHeightsTo structures.now enumerations.now depth self.now }
        requires bounded { depth < highest }
        ensures { IfOk result (λ made. made
            ≡ map (λ e. 1 + highest_content (height_to structures.now enumerations.now depth) e.cases)
            enumerations.now) }
    {
        let mut made = List::new(alloc);
        for enumeration in enumerations.as_slice() {
            let cases = enumeration.cases.as_slice();
            made.push(1 + self.highest_content(structures, enumerations, depth, cases))?;
        }
        Ok(made)
    }

    #[tactic(auto, using(crate::proofs::Levels::height_bounded))]
    fn highest_field(
        &self,
        structures: &Structures,
        enumerations: &Enumerations,
        depth: u32,
        fields: &[Field],
    ) -> u32
        requires heights { AreHeightsTo structures.now enumerations.now depth self.now }
        requires bounded { depth ≤ highest }
        ensures highest { result ≡ highest_field (height_to structures.now enumerations.now depth) fields.now }
        ensures bounded { result ≤ depth + 1 }
    {
        let mut highest = 0;
        for field in fields {
            highest = higher(
                highest,
                self.height_to(structures, enumerations, depth, &field.ty),
            );
        }
        highest
    }

    #[tactic(auto, using(crate::proofs::Levels::height_bounded))]
    fn highest_content(
        &self,
        structures: &Structures,
        enumerations: &Enumerations,
        depth: u32,
        cases: &[Case],
    ) -> u32
        requires heights { AreHeightsTo structures.now enumerations.now depth self.now }
        requires bounded { depth ≤ highest }
        ensures highest { result ≡ highest_content (height_to structures.now enumerations.now depth) cases.now }
        ensures bounded { result ≤ depth + 1 }
    {
        let mut highest = 0;
        for case in cases {
            let height = self.content_height(structures, enumerations, depth, &case.content);
            highest = higher(highest, height);
        }
        highest
    }

    #[tactic(auto, using(crate::proofs::Levels::height_bounded))]
    fn content_height(
        &self,
        structures: &Structures,
        enumerations: &Enumerations,
        depth: u32,
        content: &Option<Ty>,
    ) -> u32
        requires heights { AreHeightsTo structures.now enumerations.now depth self.now }
        requires bounded { depth ≤ highest }
        ensures height { result ≡ content_height (height_to structures.now enumerations.now depth) content.now }
        ensures bounded { result ≤ depth + 1 }
    {
        match content {
            Some(content) => self.height_to(structures, enumerations, depth, content),
            None => 0,
        }
    }
}

/// The height of that number in a table; what isn't there has no parts.
fn height_in(heights: &Numbers, number: u32) -> u32
    ensures { result ≡ height_in heights.now number }
{
    match heights.get(number as usize) {
        Some(height) => *height,
        None => 1,
    }
}

fn higher(one: u32, other: u32) -> u32
    ensures { result ≡ max one other }
{
    if one < other { other } else { one }
}
