// The terms of questions.
ghost use Rattle.std.specs.Prelude.{◌≡◌, [], IfOk, List as Listed};
ghost use Rattle.cat_value.specs.declared.declaration.ItemDecl.{ItemDecl};
ghost use Rattle.cat_region.specs.declared.cut.Cut.{Cut};
ghost use Rattle.cat_guard.specs.Terms.{term_of};
ghost use Rattle.cat_audit_table.specs.Numbered.{AreTermsOf, AddsTerm, items_at, question_at};

use crate::here::ConditionContext;
use crate::key_table::KeyTable;
use crate::path::path_of;
use crate::token::token_of;
use cat_audit_keys::term_key;
use cat_guard::{Term, Terms};
use cat_pos::List;
use cat_region::Dim;
use cat_scope::{Expr, copy_expr};
use std::alloc::{AllocError, Global};

/// The terms of the questions so far, by first appearance, with their keys.
#[derive(Drop)]
pub struct TermTable {
    pub terms: Terms,
    pub keys: KeyTable,
}

/// The term of each question on an expression of that dimension.
fn term_at(here: &ConditionContext, expr: &Expr, dim: Dim) -> Result<Term, AllocError>
    ensures { IfOk result (λ term. (cut : Cut)
        → term ≡ term_of (items_at here.now) (question_at here.now expr.now dim cut)) }
{
    let path = path_of(here.alloc, here.items, expr)?;
    let expr_copy = copy_expr(here.alloc, expr)?;
    Ok(Term {
        expr: expr_copy,
        function: here.place.function,
        params: here.place.params,
        path,
        dim,
        pos: token_of(expr),
    })
}

impl TermTable {
    pub fn new(alloc: Global) -> TermTable
        ensures { (items : Listed ItemDecl) → AreTermsOf items [] result }
    {
        TermTable {
            terms: List::new(alloc),
            keys: KeyTable::new(alloc),
        }
    }

    /// The number of the term of each question on an expression of that dimension.
    pub fn number(
        &mut self,
        here: &ConditionContext,
        expr: &Expr,
        dim: Dim,
    ) -> Result<usize, AllocError>
        ensures { IfOk result (λ number. (cut : Cut)
            → AddsTerm (items_at here.now) (question_at here.now expr.now dim cut) self.old self.new number) }
    {
        let key = term_key(here.alloc, here.place, dim, expr)?;
        let (number, fresh) = self.keys.number(key)?;
        if !fresh {
            return Ok(number);
        }
        let term = term_at(here, expr, dim)?;
        self.terms.push(term)?;
        Ok(number)
    }
}
