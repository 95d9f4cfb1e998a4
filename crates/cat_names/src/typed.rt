// Expressions that have a type, and the names that they may use.
use cat_pos::{List, Pos, Text};
use cat_scope::Expr;
use cat_value::Ty;

/// A bound name: a parameter, or a name of a form or of an arm. A local name is numbered by its index in the list of
/// those in scope.
#[derive(Debug, Drop)]
pub struct Local {
    pub name: Text,
    pub ty: Ty,
}

pub type Locals = List<Local>;

/// A resolved expression with its type.
#[derive(Debug, Drop)]
pub struct Typed {
    /// The position of the first token, parentheses included.
    pub first: Pos,
    /// Where it stands that the type is not the one wanted: at the operator, else at the first token.
    pub operator: Pos,
    pub expr: Expr,
    pub ty: Ty,
}

/// The types that operators take.
#[derive(Clone, Copy, PartialEq, Eq, Debug)]
pub enum Flat {
    Boolean,
    Integer,
    Decimal,
    Money,
    Date,
    Duration,
}
