// What questions ask, by numbers.
ghost use Rattle.std.specs.Prelude.{[], IfOk, List as Listed};
ghost use Rattle.cat_value.specs.declared.declaration.ItemDecl.{ItemDecl};
ghost use Rattle.cat_guard.specs.Questions.{ask};
ghost use Rattle.cat_audit_table.specs.Numbered.{IsNumberingOf, AddsGuard, items_at, standing_at};

use crate::atom_table::AtomTable;
use crate::here::ConditionContext;
use crate::term_table::TermTable;
use cat_guard::Guard;
use cat_region::{Cut, Dim};
use cat_scope::Expr;
use std::alloc::{AllocError, Global};

/// The terms and the atoms of the questions so far.
#[derive(Drop)]
pub struct Numbering {
    pub terms: TermTable,
    pub atoms: AtomTable,
}

impl Numbering {
    pub fn new(alloc: Global) -> Numbering
        ensures { (items : Listed ItemDecl) → IsNumberingOf items [] result }
    {
        Numbering {
            terms: TermTable::new(alloc),
            atoms: AtomTable::new(alloc),
        }
    }

    /// One question alone.
    pub fn ask(
        &mut self,
        here: &ConditionContext,
        expr: &Expr,
        dim: Dim,
        cut: Cut,
    ) -> Result<Guard, AllocError>
        ensures { IfOk result (AddsGuard (items_at here.now) (ask (standing_at here.now) expr.now dim cut) self.old
            self.new) }
    {
        let term = self.terms.number(here, expr, dim)?;
        let atom = self.atoms.number(here.alloc, term, cut)?;
        Ok(Guard::Atom(atom))
    }
}
