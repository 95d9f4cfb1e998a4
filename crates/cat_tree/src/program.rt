// Declarations and scope blocks as they are written.

use crate::{Name, Names, Node, Type};
use cat_pos::{List, Pos};

/// A name with its declared type.
#[derive(Debug, Drop)]
pub struct FieldItem {
    pub name: Name,
    pub ty: Type,
}

pub type FieldItems = List<FieldItem>;

/// A case of an enumeration, and its content's type.
#[derive(Debug, Drop)]
pub struct CaseItem {
    pub name: Name,
    pub content: Option<Type>,
}

#[derive(Clone, Copy, Debug, PartialEq, Eq)]
pub enum VariableKind {
    Input,
    InputOutput,
    Output,
    Internal,
    Context,
    ContextOutput,
}

/// A variable of a scope.
#[derive(Debug, Drop)]
pub enum Variable {
    /// A kind with the position of its first word, a name, the type where it is no condition, and the parameters.
    Own(VariableKind, Pos, Name, Option<Type>, FieldItems),
    /// A name for a called scope, and that scope's.
    Called(Name, Name),
}

/// What a definition or a rule is an exception to.
#[derive(Debug, Drop)]
pub enum Exception {
    No,
    /// The only root of the target; the position of the word `exception`.
    OnlyRoot(Pos),
    /// The group with a label; the position of the word `exception`.
    Labelled(Pos, Name),
}

/// The label of a group, and the position of the word `label`.
#[derive(Debug, Drop)]
pub struct SurfaceLabel {
    pub pos: Pos,
    pub name: Name,
}

/// What stands before `definition` or `rule`.
#[derive(Debug, Drop)]
pub struct Lead {
    pub label: Option<SurfaceLabel>,
    pub exception: Exception,
}

/// A variable of the scope, or one of a scope that it calls, with the parameters' names.
#[derive(Debug, Drop)]
pub struct TargetName {
    pub name: Name,
    pub inner: Option<Name>,
    pub params: Names,
}

/// What a rule says of the condition variable that it is for.
#[derive(Clone, Copy, Debug, PartialEq, Eq)]
pub enum Fulfilled {
    Yes,
    No,
}

/// A line of a scope block, with the position of its own keyword.
#[derive(Debug, Drop)]
pub enum Use {
    /// The condition, where there is one, then the consequence.
    Definition(Lead, Pos, TargetName, Option<Node>, Node),
    Rule(Lead, Pos, TargetName, Option<Node>, Fulfilled),
    Assertion(Pos, Node),
    /// `date round increasing`, or `decreasing` where it is false.
    DateRound(Pos, bool),
}

/// A scope block: the position of the word `scope`, the scope's name, and the condition under which each of its
/// definitions and rules stands.
#[derive(Debug, Drop)]
pub struct Block {
    pub pos: Pos,
    pub name: Name,
    pub condition: Option<Node>,
    pub uses: List<Use>,
}

/// A declaration, or a scope block. A declaration's position is that of its first token.
#[derive(Debug, Drop)]
pub enum Item {
    Structure(Pos, Name, FieldItems),
    Enumeration(Pos, Name, List<CaseItem>),
    Scope(Pos, Name, List<Variable>),
    Block(Block),
}

/// A whole program, as it is written.
#[derive(Debug, Drop)]
pub struct Tree {
    pub items: List<Item>,
}
