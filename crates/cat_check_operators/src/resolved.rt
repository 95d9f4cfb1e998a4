// Expressions that have a type, as a walk holds them.
ghost use Rattle.std.specs.Prelude.{◌≡◌, Ok};
ghost use Rattle.cat_names.specs.Found.{Tells};
ghost use Rattle.cat_names.specs.Operations.{operated};
ghost use Rattle.cat_names.specs.Meaning.{starting};

use cat_names::{Refusal, Typed};
use cat_pos::{Boxed, Pos};
use cat_scope::Expr;
use cat_value::Ty;
use std::alloc::Global;
use std::marker::Model;

/// A resolved expression with its type, which contracts see as a `Typed`. Its expression is in a box, so that a form
/// takes its parts without a new one.
pub struct Resolved {
    first: Pos,
    operator: Pos,
    expr: Boxed<Expr>,
    ty: Ty,
}

impl Model for Resolved {
    ghost use Rattle.cat_names.specs.declared.typed.Typed.{Typed};
    ghost use Rattle.cat_names.specs.contracts.typed.Typed as typed;
    ghost use Rattle.std.specs.Coded.{codes};

    ghost Value = { Typed };

    ghost coded = { Prim.hlevel (codes, typed.the_row.coded) };

    ghost view = { λ x. record { first = x.first; operator = x.operator; expr = x.expr; ty = x.ty } };
}

impl Drop for Resolved {
    fn drop(self) {
        let Resolved {
            first: _,
            operator: _,
            expr: _,
            ty: _,
        } = self;
    }
}

impl Resolved {
    /// An expression with its first token, and where it stands that its type is not the one wanted.
    pub fn new(
        alloc: Global,
        first: Pos,
        operator: Pos,
        expr: Expr,
        ty: Ty,
    ) -> Result<Resolved, Refusal>
        ensures { Tells result (Ok (operated first operator expr ty)) }
    {
        let expr = Boxed::new(alloc, expr)?;
        Ok(Resolved {
            first,
            operator,
            expr,
            ty,
        })
    }

    /// The position of the first token.
    pub fn first(&self) -> Pos
        ensures { result ≡ self.now.first }
    {
        self.first
    }

    /// Where it stands that the type is not the one wanted.
    pub fn operator(&self) -> Pos
        ensures { result ≡ self.now.operator }
    {
        self.operator
    }

    pub fn ty(&self) -> &Ty
        ensures { result.now ≡ self.now.ty }
    {
        &self.ty
    }

    /// The same, begun by a parenthesis.
    pub fn starting(self, first: Pos) -> Resolved
        ensures { result ≡ starting first self }
    {
        let Resolved {
            first: _,
            operator,
            expr,
            ty,
        } = self;
        Resolved {
            first,
            operator,
            expr,
            ty,
        }
    }

    pub fn into_expr(self) -> Boxed<Expr>
        ensures { result ≡ self.expr }
    {
        let Resolved {
            first: _,
            operator: _,
            expr,
            ty: _,
        } = self;
        expr
    }

    /// The expression and its type.
    pub fn into_parts(self) -> (Boxed<Expr>, Ty)
        ensures expr { result.0 ≡ self.expr }
        ensures ty { result.1 ≡ self.ty }
    {
        let Resolved {
            first: _,
            operator: _,
            expr,
            ty,
        } = self;
        (expr, ty)
    }

    pub fn into_typed(self) -> Typed
        ensures { result ≡ self }
    {
        let Resolved {
            first,
            operator,
            expr,
            ty,
        } = self;
        Typed {
            first,
            operator,
            expr: expr.into_inner(),
            ty,
        }
    }
}
