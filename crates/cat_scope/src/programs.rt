// A whole program.
ghost use Rattle.cat_scope.specs.Named.{number_named};
ghost use Rattle.cat_scope.specs.WellFormed.{IsWellFormed};
ghost use Rattle.std.specs.Prelude.{◌≡◌, ◌<◌, length, slice_get, IfSome};

use crate::{Assertion, Bodies, Def};
use cat_date::Rounding;
use cat_pos::{Numbers, Shared};
use cat_value::{Decls, declarations_are_sound};

/// A program: its declarations, a body for each scope, and the scopes' numbers, each behind the scopes that it calls.
/// It is well typed, its orders are the ones that its dependencies give, and no chain of calls is longer than 256.
#[derive(Debug, Drop)]
pub struct Program {
    pub decls: Shared<Decls>,
    pub bodies: Bodies,
    pub scope_order: Numbers,
    pub ghost well_formed: { ∥ IsWellFormed decls bodies scope_order ∥₁ },
}

impl Program {
    pub fn from_parts(decls: Shared<Decls>, bodies: Bodies, scope_order: Numbers) -> Program
        requires { ∥ IsWellFormed decls bodies scope_order ∥₁ }
        ensures decls { result.decls ≡ decls }
        ensures bodies { result.bodies ≡ bodies }
        ensures scope_order { result.scope_order ≡ scope_order }
    {
        Program {
            decls,
            bodies,
            scope_order,
        }
    }

    pub fn decls(&self) -> &Decls
        ensures { result.now ≡ self.now.decls }
    {
        self.decls.get()
    }

    /// The scopes, each behind those that it calls.
    pub fn scope_order(&self) -> &[u32]
        ensures { result.now ≡ self.now.scope_order }
    {
        self.scope_order.as_slice()
    }

    /// The items of a scope, each behind those that it depends on.
    pub fn order_of(&self, scope: u32) -> &[u32]
        requires { scope < length self.now.bodies }
        ensures { IfSome (slice_get self.now.bodies scope) (λ body. result.now ≡ body.order) }
    {
        self.bodies.at(scope as usize).order.as_slice()
    }

    /// The definitions of a scope, in source order.
    pub fn defs(&self, scope: u32) -> &[Def]
        requires { scope < length self.now.bodies }
        ensures { IfSome (slice_get self.now.bodies scope) (λ body. result.now ≡ body.defs) }
    {
        self.bodies.at(scope as usize).defs.as_slice()
    }

    /// The assertions of a scope, in source order.
    pub fn assertions(&self, scope: u32) -> &[Assertion]
        requires { scope < length self.now.bodies }
        ensures { IfSome (slice_get self.now.bodies scope) (λ body. result.now ≡ body.assertions) }
    {
        self.bodies.at(scope as usize).assertions.as_slice()
    }

    /// What becomes of a day that its month lacks.
    pub fn rounding(&self, scope: u32) -> Rounding
        requires { scope < length self.now.bodies }
        ensures { IfSome (slice_get self.now.bodies scope) (λ body. result ≡ body.rounding) }
    {
        self.bodies.at(scope as usize).rounding
    }

    /// The scopes that a scope calls, each once, by first appearance in the source.
    pub fn calls(&self, scope: u32) -> &[u32]
        requires { scope < length self.now.bodies }
        ensures { IfSome (slice_get self.now.bodies scope) (λ body. result.now ≡ body.calls) }
    {
        self.bodies.at(scope as usize).calls.as_slice()
    }

    /// The scope with that name, where there is one.
    pub fn scope_named(&self, name: &str) -> Option<u32>
        ensures { result ≡ number_named name.now 0 self.now.decls.scopes }
    {
        declarations_are_sound(self.decls());
        for (number, scope) in self.decls().scopes.as_slice().iter().enumerate() {
            if scope.name.as_str() == name {
                return Some(number as u32);
            }
        }
        None
    }
}

/// What the invariant of a program says.
pub fn programs_are_well_formed(program: &Program)
    ensures { ∥ IsWellFormed program.now.decls program.now.bodies program.now.scope_order ∥₁ }
{}
