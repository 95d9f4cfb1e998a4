// The terms of the default calculus.
use cat_pos::{Boxed, List, Pos, Shared};
use cat_scope::Expr;

/// What the consequence of a default stands under.
#[derive(Debug, Drop)]
pub enum Justification {
    Never,
    Always,
    /// A boolean expression.
    Where(Shared<Expr>),
}

/// A term of the default calculus, over the expressions of a scope.
#[cycle(term)]
#[derive(Debug, Drop)]
pub enum DefaultTerm {
    /// Nothing holds.
    Empty,
    /// The consequence of a definition: the definition's number among those of its scope, its position, and what it
    /// gives.
    Consequence(u32, Pos, Shared<Expr>),
    /// `⟨exceptions | justification :- consequence⟩`.
    Default(DefaultTerms, Justification, Boxed<DefaultTerm>),
}

pub type DefaultTerms = List<DefaultTerm>;
