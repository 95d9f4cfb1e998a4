// Where expressions begin.
ghost use Rattle.std.specs.Prelude.{◌≡◌};
ghost use Rattle.cat_guard.specs.Terms.{token_of};

use cat_pos::Pos;
use cat_scope::Expr;

/// The position of an expression's first token.
#[tactic(auto, using(crate::proofs::Tokens::tokens))]
pub fn token_of(expr: &Expr) -> Pos
    ensures { result ≡ token_of expr.now }
{
    match expr {
        Expr::Literal(pos, _)
        | Expr::Item(pos, _)
        | Expr::Output(pos, _, _)
        | Expr::Local(pos, _)
        | Expr::Field(pos, _, _)
        | Expr::Unary(pos, _, _)
        | Expr::Binary(pos, _, _, _, _)
        | Expr::And(pos, _, _)
        | Expr::Or(pos, _, _)
        | Expr::If(pos, _, _, _)
        | Expr::Match(pos, _, _)
        | Expr::IsCase(pos, _, _, _)
        | Expr::Case(pos, _, _, _)
        | Expr::Structure(pos, _, _)
        | Expr::List(pos, _)
        | Expr::ForAll(pos, _, _)
        | Expr::Exists(pos, _, _)
        | Expr::Map(pos, _, _)
        | Expr::Filter(pos, _, _)
        | Expr::Combine(pos, _, _, _)
        | Expr::Contains(pos, _, _, _)
        | Expr::Length(pos, _)
        | Expr::Sum(pos, _, _)
        | Expr::Call(pos, _, _)
        | Expr::ScopeCall(pos, _, _, _) => *pos,
    }
}
