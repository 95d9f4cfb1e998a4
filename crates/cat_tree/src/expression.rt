// Expressions as they are written.

use crate::{CaseName, Name, Type};
use cat_date::Day;
use cat_num::{DecimalLiteral, Money, Whole};
use cat_pos::{Boxed, List, Pos};

/// The unit of a duration.
#[derive(Clone, Copy, Debug, PartialEq, Eq)]
pub enum Unit {
    Year,
    Month,
    Day,
}

#[derive(Clone, Copy, Debug, PartialEq, Eq)]
pub enum SurfaceLiteral {
    Int(Whole),
    Dec(DecimalLiteral),
    /// A percentage, as the decimal with two more places.
    Pct(DecimalLiteral),
    Money(Money),
    Date(Day),
    Boolean(bool),
    /// A number, at most 999,999,999, of years, months or days.
    Span(Whole, Unit),
}

/// What stands before one operand.
#[derive(Clone, Copy, Debug, PartialEq, Eq)]
pub enum Prefix {
    Not,
    Negate,
    IntegerOf,
    DecimalOf,
    MoneyOf,
    RoundOf,
    GetYear,
    GetMonth,
    GetDay,
    NumberOf,
}

/// What stands between two operands.
#[derive(Clone, Copy, Debug, PartialEq, Eq)]
pub enum Operator {
    Or,
    Xor,
    And,
    Less,
    LessEqual,
    Greater,
    GreaterEqual,
    Equal,
    NotEqual,
    Contains,
    Plus,
    Minus,
    Times,
    Divide,
}

/// A form that goes through a list with one name.
#[derive(Clone, Copy, Debug, PartialEq, Eq)]
pub enum Each {
    /// `for all w among E we have E`
    ForAll,
    /// `exists w among E such that E`
    Exists,
    /// `map each w among E to E`
    MapEach,
    /// `list of w among E such that E`
    ListOf,
}

/// What an arm takes.
#[derive(Debug, Drop)]
pub enum Pattern {
    /// A case, and the name that its content gets.
    Case(CaseName, Option<Name>),
    Anything,
}

/// An expression. A position is that of the node's first token, or of its operator where it stands inside.
#[cycle(node)]
#[derive(Debug, Drop)]
pub enum Node {
    Literal(SurfaceLiteral, Pos),
    Name(Name),
    Case(CaseName),
    Parens(Pos, Boxed<Node>),
    /// `e . w`
    Field(Boxed<Node>, Name),
    Prefixed(Prefix, Pos, Boxed<Node>),
    /// `sum T of e`
    Sum(Pos, Boxed<Type>, Boxed<Node>),
    /// `C content e`
    Content(CaseName, Boxed<Node>),
    /// `w of a, b`
    Call(Boxed<Name>, Nodes),
    Binary(Operator, Pos, Boxed<Node>, Boxed<Node>),
    /// `e with pattern C`
    Test(Boxed<Node>, Pos, Boxed<CaseName>),
    /// `[ a ; b ]`
    List(Pos, Nodes),
    /// `U { -- w : e }`
    Structure(Boxed<Name>, SurfaceFields),
    /// `output of U with { -- w : e } . w`
    ScopeCall(Pos, Boxed<Name>, Boxed<SurfaceFields>, Boxed<Name>),
    If(Pos, Boxed<Node>, Boxed<Node>, Boxed<Node>),
    Match(Pos, Boxed<Node>, Boxed<SurfaceArms>),
    Each(Each, Pos, Boxed<Name>, Boxed<Node>, Boxed<Node>),
    /// `combine all w among E in w initially E with E`
    Combine(Boxed<Accumulation>, Boxed<Node>, Boxed<Node>, Boxed<Node>),
}

/// What `combine` binds: the name of an element, and that of what was combined before.
#[derive(Debug, Drop)]
pub struct Accumulation {
    pub pos: Pos,
    pub element: Name,
    pub sum: Name,
}

/// A field of a literal or of a scope call.
#[cycle(node)]
#[derive(Debug, Drop)]
pub struct SurfaceField {
    pub name: Name,
    pub value: Node,
}

/// An arm of a match.
#[cycle(node)]
#[derive(Debug, Drop)]
pub struct SurfaceArm {
    pub pattern: Pattern,
    pub body: Node,
}

pub type Nodes = List<Node>;

pub type SurfaceArms = List<SurfaceArm>;

pub type SurfaceFields = List<SurfaceField>;
