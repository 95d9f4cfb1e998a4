// A calculus: for each scope, the terms of its targets.
ghost use Rattle.std.specs.Prelude.{◌≡◌};
ghost use Rattle.cat_calc.specs.WellFormed.{IsCalc};

use crate::{DefaultTerm, DefaultTerms};
use cat_date::Rounding;
use cat_pos::{List, Numbers, Shared};
use cat_scope::Assertions;
use cat_value::Decls;

/// The terms of an item.
#[derive(Debug, Drop)]
pub struct ItemTerms {
    /// Of the item, where it is a variable.
    pub own: DefaultTerm,
    /// Of the items of the scope that it calls, where it is a called scope.
    pub inner: DefaultTerms,
}

pub type TermsOfItems = List<ItemTerms>;

/// A scope: its declaration stands among those of the calculus.
#[derive(Debug, Drop)]
pub struct CalcScope {
    /// What becomes of a day that its month lacks.
    pub rounding: Rounding,
    /// The numbers of the items, each behind those that its terms name.
    pub order: Numbers,
    /// For each item, in the order of their declarations.
    pub terms: TermsOfItems,
    /// In source order.
    pub assertions: Assertions,
}

pub type CalcScopes = List<CalcScope>;

/// A calculus: declarations, for each scope its terms, and the scopes' numbers, each behind the scopes that it calls.
/// Its terms are well typed.
#[derive(Debug, Drop)]
pub struct Calc {
    pub decls: Shared<Decls>,
    pub scopes: CalcScopes,
    pub scope_order: Numbers,
    pub ghost well_formed: { ∥ IsCalc decls scopes scope_order ∥₁ },
}

impl Calc {
    pub fn from_parts(decls: Shared<Decls>, scopes: CalcScopes, scope_order: Numbers) -> Calc
        requires { ∥ IsCalc decls scopes scope_order ∥₁ }
        ensures decls { result.decls ≡ decls }
        ensures scopes { result.scopes ≡ scopes }
        ensures scope_order { result.scope_order ≡ scope_order }
    {
        Calc {
            decls,
            scopes,
            scope_order,
        }
    }

    pub fn decls(&self) -> &Decls
        ensures { result.now ≡ self.now.decls }
    {
        self.decls.get()
    }
}

/// What the invariant of a calculus says.
pub fn calculi_are_well_formed(calc: &Calc)
    ensures { ∥ IsCalc calc.now.decls calc.now.scopes calc.now.scope_order ∥₁ }
{}
