// What the forms of expressions tell of their evaluation.
ghost use Rattle.std.specs.Prelude.{◌≡◌};
ghost use Rattle.cat_dead_report.specs.inside.Forms as words;

use cat_pos::Boxed;
use cat_scope::{BinaryOp, Expr, Literal, UnaryOp};

/// What the form of an expression tells of its evaluation, where all that it names has a value.
#[derive(Clone, Copy)]
pub(crate) enum Safety {
    MayFault,
    CannotFault,
    /// It can't fault, and what it gives is no duration: two durations may not be comparable.
    Constant,
}

fn of_literal(literal: Literal) -> Safety
    ensures { result ≡ words.of_literal literal }
{
    match literal {
        Literal::Duration(_) => Safety::CannotFault,
        Literal::Boolean(_)
        | Literal::Integer(_)
        | Literal::Decimal(_)
        | Literal::Money(_)
        | Literal::Date(_) => Safety::Constant,
    }
}

/// Of what is read off the value of an expression, by its safety.
fn of_part(whole: Safety) -> Safety
    ensures { result ≡ words.of_part whole }
{
    match whole {
        Safety::MayFault => Safety::MayFault,
        Safety::CannotFault | Safety::Constant => Safety::CannotFault,
    }
}

fn of_unary(op: UnaryOp, operand: Safety) -> Safety
    ensures { result ≡ words.of_unary op operand }
{
    match op {
        UnaryOp::NegateInteger | UnaryOp::NegateDecimal | UnaryOp::NegateMoney | UnaryOp::Not =>
            operand,
        _ => Safety::MayFault,
    }
}

/// Of two expressions of which the second may be evaluated behind the first.
fn of_both(one: Safety, other: Safety) -> Safety
    ensures { result ≡ words.of_both one other }
{
    match one {
        Safety::MayFault => Safety::MayFault,
        Safety::CannotFault | Safety::Constant => of_part(other),
    }
}

/// Of a comparison with an expression, by its safety.
fn of_compared(other: Safety) -> Safety
    ensures { result ≡ words.of_compared other }
{
    match other {
        Safety::MayFault | Safety::CannotFault => Safety::MayFault,
        Safety::Constant => Safety::CannotFault,
    }
}

/// Of the comparison of two expressions, of which one must be a constant.
fn of_comparison(one: Safety, other: Safety) -> Safety
    ensures { result ≡ words.of_comparison one other }
{
    match one {
        Safety::MayFault => Safety::MayFault,
        Safety::CannotFault => of_compared(other),
        Safety::Constant => of_part(other),
    }
}

fn of_binary(op: BinaryOp, one: Safety, other: Safety) -> Safety
    ensures { result ≡ words.of_binary op one other }
{
    match op {
        BinaryOp::Less
        | BinaryOp::AtMost
        | BinaryOp::Greater
        | BinaryOp::AtLeast
        | BinaryOp::Equal
        | BinaryOp::Unequal => of_comparison(one, other),
        _ => Safety::MayFault,
    }
}

fn of_content(content: &Option<Boxed<Expr>>) -> Safety
    ensures { result ≡ words.of_content content.now }
{
    match content {
        None => Safety::CannotFault,
        Some(_) => Safety::MayFault,
    }
}

/// What the form of an expression tells: constants, variables and fields of them, comparisons of these with constants,
/// and their connections can't fault. It costs a step for each part of the expression.
#[cycle(forms)]
#[tactic(auto, using(crate::proofs::FormLemmas::forms))]
pub(crate) fn safety_of(expr: &Expr) -> Safety
    ensures { result ≡ words.safety_of expr.now }
{
    match expr {
        Expr::Literal(_, literal) => of_literal(*literal),
        Expr::Item(_, _) | Expr::Output(_, _, _) => Safety::CannotFault,
        Expr::Field(_, of, _) => of_part(safety_of(of.get())),
        Expr::Unary(_, op, operand) => of_unary(*op, safety_of(operand.get())),
        Expr::Binary(_, op, _, one, other) => {
            of_binary(*op, safety_of(one.get()), safety_of(other.get()))
        }
        Expr::And(_, one, other) => of_both(safety_of(one.get()), safety_of(other.get())),
        Expr::Or(_, one, other) => of_both(safety_of(one.get()), safety_of(other.get())),
        Expr::IsCase(_, of, _, _) => of_part(safety_of(of.get())),
        Expr::Case(_, _, _, content) => of_content(content),
        Expr::Local(_, _)
        | Expr::If(_, _, _, _)
        | Expr::Match(_, _, _)
        | Expr::Structure(_, _, _)
        | Expr::List(_, _)
        | Expr::ForAll(_, _, _)
        | Expr::Exists(_, _, _)
        | Expr::Map(_, _, _)
        | Expr::Filter(_, _, _)
        | Expr::Combine(_, _, _, _)
        | Expr::Contains(_, _, _, _)
        | Expr::Length(_, _)
        | Expr::Sum(_, _, _)
        | Expr::Call(_, _, _)
        | Expr::ScopeCall(_, _, _, _) => Safety::MayFault,
    }
}
