// The definitions of a program and their exceptions.
use crate::Expr;
use cat_date::Rounding;
use cat_pos::{List, Numbers, Pos, Shared, Text};
use cat_value::Target;

/// A label, with the position of its word.
#[derive(Debug, Drop)]
pub struct Label {
    pub text: Text,
    pub pos: Pos,
}

/// What a definition is an exception to, with the position of the word `exception`.
#[derive(Debug, Drop)]
pub enum Except {
    No,
    /// A bare `exception`: to the only root of the target.
    OnlyRoot(Pos),
    /// To the group with this label, the word after `exception`.
    Named(Pos, Label),
}

/// A definition or a rule. Its condition is joined with that of its block; there is none where it always holds. Its
/// position is that of the word `definition` or `rule`. Default terms share its expressions.
#[derive(Debug, Drop)]
pub struct Def {
    pub target: Target,
    pub label: Option<Label>,
    pub except: Except,
    pub condition: Option<Shared<Expr>>,
    pub consequence: Shared<Expr>,
    /// How many parameters it names.
    pub params: u32,
    pub pos: Pos,
}

pub type Defs = List<Def>;

#[derive(Debug, Drop)]
pub struct Assertion {
    pub condition: Shared<Expr>,
    /// The position of the word `assertion`.
    pub keyword: Pos,
}

pub type Assertions = List<Assertion>;

/// A part of what the source says of a scope.
#[derive(Debug, Drop)]
pub enum SourcePart {
    /// The declaration of the scope, with its items.
    Declaration,
    /// The condition of a block, which is joined to the condition of each definition in the block.
    Condition(Shared<Expr>),
    /// The next definition.
    Definition,
    /// The next assertion.
    Assertion,
}

pub type SourceParts = List<SourcePart>;

/// What a program says of one scope beside its declaration.
#[derive(Debug, Drop)]
pub struct Body {
    /// In source order.
    pub defs: Defs,
    /// In source order.
    pub assertions: Assertions,
    /// In which order the declaration, the definitions and the assertions stand in the source.
    pub source: SourceParts,
    /// What becomes of a day that its month lacks.
    pub rounding: Rounding,
    /// The numbers of the items, each behind those that it depends on.
    pub order: Numbers,
    /// The scopes that this one calls, each once, by first appearance in the source.
    pub calls: Numbers,
}

pub type Bodies = List<Body>;
