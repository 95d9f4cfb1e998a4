// What a program declares: structures, enumerations, and scopes with their items.
ghost use Rattle.std.specs.Prelude.{◌≡◌};
ghost use Rattle.cat_value.specs.Inputs.{is_function, is_output, is_plain, may_be_given, must_be_given};

use crate::{Ty, Tys};
use cat_pos::{List, Pos, Text};

#[derive(Debug, Drop)]
pub struct Field {
    pub name: Text,
    pub ty: Ty,
}

pub type Fields = List<Field>;

#[derive(Debug, Drop)]
pub struct Structure {
    pub name: Text,
    pub fields: Fields,
}

pub type Structures = List<Structure>;

/// A case of an enumeration, which has a content or none.
#[derive(Debug, Drop)]
pub struct Case {
    pub name: Text,
    pub content: Option<Ty>,
}

pub type Cases = List<Case>;

#[derive(Debug, Drop)]
pub struct Enumeration {
    pub name: Text,
    pub cases: Cases,
}

pub type Enumerations = List<Enumeration>;

/// Where an item's value comes from, and whether it is an output of its scope.
#[derive(Clone, Copy, PartialEq, Eq, Debug)]
pub enum Kind {
    /// Given by the caller.
    Input,
    /// Defined, and an output.
    Output,
    /// Defined.
    Internal,
    /// Given or else defined.
    Context,
    /// Given by the caller, and an output.
    InputOutput,
    /// Given or else defined, and an output.
    ContextOutput,
    /// No variable, but the called scope of that number.
    Called(u32),
}

impl Kind {
    pub fn may_be_given(self) -> bool
        ensures { result ≡ may_be_given self }
    {
        match self {
            Kind::Input | Kind::InputOutput | Kind::Context | Kind::ContextOutput => true,
            Kind::Output | Kind::Internal | Kind::Called(_) => false,
        }
    }

    pub fn must_be_given(self) -> bool
        ensures { result ≡ must_be_given self }
    {
        match self {
            Kind::Input | Kind::InputOutput => true,
            Kind::Output | Kind::Internal | Kind::Context | Kind::ContextOutput | Kind::Called(_) =>
                false,
        }
    }

    pub fn is_output(self) -> bool
        ensures { result ≡ is_output self }
    {
        match self {
            Kind::Output | Kind::InputOutput | Kind::ContextOutput => true,
            Kind::Input | Kind::Internal | Kind::Context | Kind::Called(_) => false,
        }
    }
}

/// A variable or a called scope of a scope. Only a function has parameters. A called scope is no condition, and its
/// type is `Boolean`, which nothing reads.
#[derive(Debug, Drop)]
pub struct ItemDecl {
    pub name: Text,
    /// The position of the name.
    pub pos: Pos,
    pub kind: Kind,
    pub ty: Ty,
    /// Whether it is a condition: a boolean that is false where no rule holds.
    pub condition: bool,
    pub params: Tys,
}

impl ItemDecl {
    /// Whether it is a variable that has a value.
    pub fn is_plain(&self) -> bool
        ensures { result ≡ is_plain self.now }
    {
        !matches!(self.kind, Kind::Called(_)) && self.params.is_empty()
    }

    pub fn is_function(&self) -> bool
        ensures { result ≡ is_function self.now }
    {
        !matches!(self.kind, Kind::Called(_)) && !self.params.is_empty()
    }
}

pub type ItemDecls = List<ItemDecl>;

#[derive(Debug, Drop)]
pub struct Scope {
    pub name: Text,
    pub items: ItemDecls,
}

pub type Scopes = List<Scope>;
