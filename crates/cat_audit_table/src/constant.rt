// Constants with which conditions compare.
ghost use Rattle.std.specs.Prelude.{◌≡◌};
ghost use Rattle.cat_guard.specs.Comparisons.{constant_of, literal_constant, negated_constant, threshold_dim};

use cat_num::{Money, Whole, frac_of_decimal};
use cat_region::{Dim, Threshold};
use cat_scope::{Expr, Literal, UnaryOp};

/// The dimension of what may be compared with a constant.
pub fn threshold_dim(threshold: &Threshold) -> Dim
    ensures { result ≡ threshold_dim threshold.now }
{
    match threshold {
        Threshold::Whole(_) => Dim::Whole,
        Threshold::Money(_) => Dim::Money,
        Threshold::Day(_) => Dim::Day,
        Threshold::Decimal(_) => Dim::Decimal,
    }
}

/// The constant that a literal is: an integer, a decimal, an amount or a date.
fn literal_constant(literal: Literal) -> Option<Threshold>
    ensures { result ≡ literal_constant literal }
{
    match literal {
        Literal::Boolean(_) | Literal::Duration(_) => None,
        Literal::Integer(whole) => Some(Threshold::Whole(whole)),
        Literal::Decimal(decimal) => Some(Threshold::Decimal(frac_of_decimal(decimal))),
        Literal::Money(money) => Some(Threshold::Money(money)),
        Literal::Date(day) => Some(Threshold::Day(day)),
    }
}

/// The constant that a negated literal is.
fn negated_constant(op: UnaryOp, literal: Literal) -> Option<Threshold>
    ensures { result ≡ negated_constant op literal }
{
    match (op, literal) {
        (UnaryOp::NegateInteger, Literal::Integer(whole)) => Some(Threshold::Whole(whole.neg())),
        (UnaryOp::NegateDecimal, Literal::Decimal(decimal)) => {
            Some(Threshold::Decimal(frac_of_decimal(decimal).neg()))
        }
        (UnaryOp::NegateMoney, Literal::Money(money)) => Some(Threshold::Money(money.neg())),
        _ => None,
    }
}

/// The constant that an expression is, where it is a literal or a negated one.
#[tactic(auto, using(crate::proofs::Constants::constants))]
pub fn constant_of(expr: &Expr) -> Option<Threshold>
    ensures { result ≡ constant_of expr.now }
{
    match expr {
        Expr::Literal(_, literal) => literal_constant(*literal),
        Expr::Unary(_, op, of) => match of.get() {
            Expr::Literal(_, literal) => negated_constant(*op, *literal),
            _ => None,
        },
        _ => None,
    }
}
