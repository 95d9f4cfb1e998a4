// What stands in the log of a run.
ghost use Rattle.std.specs.Prelude.{◌≡◌, ℕ, IsTrue, List, None, Ok, Some, slice_get};
ghost use Rattle.cat_value.specs.declared.value.Value.{Value};
ghost use Rattle.cat_value.specs.declared.declaration.ItemDecl.{ItemDecl};
ghost use Rattle.cat_value.specs.declared.declaration.Scope.{Scope};
ghost use Rattle.cat_scope.specs.declared.defs.Body.{Body};
ghost use Rattle.cat_scope.specs.Names.{is_plain};
ghost use Rattle.cat_scope.specs.Calls.{Items, Runs};
ghost use Rattle.cat_scope.specs.Running.{entry_at, run_scoped, scope_run, scoped_of};
ghost use Rattle.cat_sound.specs.Logs.{IsMadeOf, times_logged};

use cat_scope::Program;

/// What stands in the log of a run was judged in that run, with the values of its index in the order, or in a run of a
/// scope that is run within, whose whole log stands there.
#[tactic(auto, using(crate::proofs::LogLaws::made_of_judgings))]
pub fn logs_are_made_of_judgings()
    ensures { (number : ℕ) (items : List ItemDecl) (body : Body) (scopes : List Scope) (runs : Runs) (input : Items)
        → IsMadeOf (scoped_of number items body scopes runs) input
        (run_scoped (scoped_of number items body scopes runs) input).log }
{}

/// Where the run of a scope ends in a value, each variable of the scope that has no given value is logged once.
#[tactic(auto, using(crate::proofs::LogLaws::each_once))]
pub fn each_variable_is_logged_once(program: &Program)
    ensures { (number : ℕ) (scope : Scope) (body : Body) (input : Items) (outputs : List Value) (item : ℕ)
        (decl : ItemDecl) → slice_get program.now.decls.scopes number ≡ Some scope
        → slice_get program.now.bodies number ≡ Some body
        → slice_get scope.items item ≡ Some decl → IsTrue (is_plain decl) → entry_at item input ≡ None
        → (scope_run program.now number input).end ≡ Ok outputs
        → times_logged (record { scope = number; item = item; inner = None }) (scope_run program.now number input).log
        ≡ 1 }
{}
