// Code with its tables.
ghost use Rattle.std.specs.Prelude.{◌≡◌};
ghost use Rattle.cat_code.specs.Valid.{IsValid};

use crate::Instrs;
use cat_pos::{List, Numbers, Pos, Positions, Shared};
use cat_value::{Decls, Target, Ty, Value};

/// A target, with the position of the name that has no value where none of its definitions holds.
#[derive(Clone, Copy, Debug)]
pub struct TargetEntry {
    pub target: Target,
    pub pos: Pos,
}

pub type TargetEntries = List<TargetEntry>;

/// A value of a type.
#[derive(Debug, Drop)]
pub struct Constant {
    pub ty: Ty,
    pub value: Value,
}

pub type Constants = List<Constant>;

/// A case: its enumeration, and its number there.
#[derive(Clone, Copy, Debug)]
pub struct CasePlace {
    pub enumeration: u32,
    pub case: u32,
}

pub type CasePlaces = List<CasePlace>;

/// What instructions name by number.
#[derive(Debug, Drop)]
pub struct Tables {
    pub decls: Shared<Decls>,
    /// The cases of all enumerations, in the order of their declarations.
    pub cases: CasePlaces,
    /// For each scope the instruction at which it begins.
    pub scopes: Numbers,
    pub targets: TargetEntries,
    /// The positions of the definitions: those of one scope stand in source order.
    pub definitions: Positions,
    /// For each function the instruction at which it begins: by scope and item.
    pub functions: Numbers,
    pub positions: Positions,
    pub constants: Constants,
}

/// Instructions with the tables that they name. They are valid and tame.
#[derive(Debug, Drop)]
pub struct Code {
    pub tables: Tables,
    pub instructions: Instrs,
    pub ghost valid: { ∥ IsValid tables instructions ∥₁ },
}

impl Code {
    pub fn from_parts(tables: Tables, instructions: Instrs) -> Code
        requires { ∥ IsValid tables instructions ∥₁ }
        ensures tables { result.tables ≡ tables }
        ensures instructions { result.instructions ≡ instructions }
    {
        Code {
            tables,
            instructions,
        }
    }
}

/// What the invariant of code says.
pub fn code_is_valid(code: &Code)
    ensures { ∥ IsValid code.now.tables code.now.instructions ∥₁ }
{}
