// Expressions, with each name as the number of what it names.
use crate::{BinaryOp, SumKind, UnaryOp};
use cat_date::{Day, Span};
use cat_num::{DecimalLiteral, Money, Whole};
use cat_pos::{Boxed, List, Pos, Shared};

#[derive(Clone, Copy, PartialEq, Eq, Debug)]
pub enum Literal {
    Boolean(bool),
    Integer(Whole),
    Decimal(DecimalLiteral),
    Money(Money),
    Date(Day),
    Duration(Span),
}

/// An expression. Each variant begins with the position of its first token; where a fault stands elsewhere, at an
/// operator between two operands, that position follows the operator.
///
/// Local names are numbered in the order in which they are bound: the parameters of the definition first. A form that
/// goes over a list binds one name to each element, and `Combine` binds a second one to what was combined before.
/// Structures, enumerations and scopes are named by their numbers among the declarations, fields and cases by those
/// among the fields and cases of their type.
#[cycle(expr)]
#[derive(Debug, Drop)]
pub enum Expr {
    Literal(Pos, Literal),
    /// A variable of the scope.
    Item(Pos, u32),
    /// `t.y`: a called scope of the scope, and the number of y among the outputs of the scope called.
    Output(Pos, u32, u32),
    Local(Pos, u32),
    Field(Pos, Boxed<Expr>, u32),
    /// The operator is the first token.
    Unary(Pos, UnaryOp, Boxed<Expr>),
    Binary(Pos, BinaryOp, Pos, Boxed<Expr>, Boxed<Expr>),
    /// The condition of a block is shared by the definitions that join their own to it.
    And(Pos, Shared<Expr>, Boxed<Expr>),
    Or(Pos, Boxed<Expr>, Boxed<Expr>),
    If(Pos, Boxed<Expr>, Boxed<Expr>, Boxed<Expr>),
    Match(Pos, Boxed<Expr>, Boxed<Arms>),
    /// `e with pattern C`: whether e is that case of that enumeration.
    IsCase(Pos, Boxed<Expr>, u32, u32),
    /// A case of an enumeration, with its content where it has one.
    Case(Pos, u32, u32, Option<Boxed<Expr>>),
    /// A structure, with its fields in written order.
    Structure(Pos, u32, FieldValues),
    List(Pos, Exprs),
    ForAll(Pos, Boxed<Expr>, Boxed<Expr>),
    Exists(Pos, Boxed<Expr>, Boxed<Expr>),
    /// `map each w among l to e`.
    Map(Pos, Boxed<Expr>, Boxed<Expr>),
    /// `list of w among l such that e`.
    Filter(Pos, Boxed<Expr>, Boxed<Expr>),
    /// `combine all w among l in a initially s with e`: l, s and e.
    Combine(Pos, Boxed<Expr>, Boxed<Expr>, Boxed<Expr>),
    /// `l contains e`, with the position of `contains`.
    Contains(Pos, Pos, Boxed<Expr>, Boxed<Expr>),
    /// `number of l`.
    Length(Pos, Boxed<Expr>),
    /// `sum T of l`.
    Sum(Pos, SumKind, Boxed<Expr>),
    /// A call of a function variable of the scope.
    Call(Pos, u32, Exprs),
    /// `output of U with { .. } . w`: the scope, its inputs and contexts by their numbers among its items, in written
    /// order, and the number of w among its outputs.
    ScopeCall(Pos, u32, Boxed<FieldValues>, u32),
}

pub type Exprs = List<Expr>;

/// A part of a structure or of a scope call: which one, and what it is.
#[cycle(expr)]
#[derive(Debug, Drop)]
pub struct FieldValue {
    pub field: u32,
    pub value: Expr,
}

pub type FieldValues = List<FieldValue>;

/// What an arm is for.
#[derive(Clone, Copy, PartialEq, Eq, Debug)]
pub enum ArmPattern {
    /// A case, and whether its content is bound to a local name.
    Case(u32, bool),
    Anything,
}

#[cycle(expr)]
#[derive(Debug, Drop)]
pub struct Arm {
    pub pattern: ArmPattern,
    pub body: Expr,
}

pub type Arms = List<Arm>;
