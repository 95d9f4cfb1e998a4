// What evaluations rest on.
ghost use Rattle.std.specs.Prelude.{◌≡◌, ◌↔◌, ◌<◌, ◌++◌, ℕ, length, IsTrue, List, take, slice_get, Some};
ghost use Rattle.cat_order.specs.Order.{IsOrder};
ghost use Rattle.cat_value.specs.declared.value.Value.{Value};
ghost use Rattle.cat_scope.specs.declared.expr.Expr.{Expr};
ghost use Rattle.cat_scope.specs.Calls.{Items, Runs, call};
ghost use Rattle.cat_scope.specs.Eval.{Env, eval};
ghost use Rattle.cat_scope.specs.Names.{is_in};
ghost use Rattle.cat_scope.specs.Orders.{item_dependencies};
ghost use Rattle.cat_scope.specs.Running.{backwards, run_scoped, scope_run, scoped_of};
ghost use Rattle.cat_value.specs.declared.declaration.ItemDecl.{ItemDecl};
ghost use Rattle.cat_value.specs.declared.declaration.Scope.{Scope};
ghost use Rattle.cat_scope.specs.declared.defs.Body.{Body};
ghost use Rattle.cat_scope.specs.Same.{Alike, Same, Standing};
ghost use Rattle.cat_scope.specs.SameTree.{same_tree};
ghost use Rattle.cat_sound.specs.Rests.{AgreeOn, judged_call};

use cat_scope::Program;

/// What an expression gives, and what is decided on the way, rests on what it names alone: items, functions and scopes.
#[tactic(auto, using(crate::proofs::Rests::names_alone))]
pub fn expressions_rest_on_what_they_name()
    ensures { (a : Env) (b : Env) (e : Expr) (locals : List Value) → AgreeOn a b e → eval a e locals ≡ eval b e locals }
{}

/// Expressions that agree but for positions decide the same, and have the same value or none, where parameters of one
/// function have the same arguments.
#[tactic(auto, using(crate::proofs::Alike::same_gives))]
pub fn positions_change_no_value()
    ensures { (env : Env) (here : Standing) (there : Standing) (e : Expr) (f : Expr) (arguments : List Value)
        (others : List Value) (locals : List Value)
        → Same here there e f → length arguments ≡ here.params → length others ≡ there.params
        → (here.function ≡ there.function → arguments ≡ others)
        → Alike (eval env e (arguments ++ locals)) (eval env f (others ++ locals)) }
{}

/// The test of two expressions is true exactly where they agree but for positions.
#[tactic(auto, using(crate::proofs::Trees::test_decides))]
pub fn the_test_of_trees_decides()
    ensures { (here : Standing) (there : Standing) (e : Expr) (f : Expr)
        → IsTrue (same_tree here there e f) ↔ Same here there e f }
{}

/// A function is judged by the rule of targets among all items of its scope; and neither more items behind it nor their
/// values change what it gives.
#[tactic(auto, using(crate::proofs::FunctionLaws::by_rule, crate::proofs::FunctionLaws::nothing_behind))]
pub fn functions_are_judged_by_the_rule()
    ensures rule { (number : ℕ) (items : List ItemDecl) (body : Body) (scopes : List Scope) (runs : Runs)
        (values : Items) (function : ℕ) (arguments : List Value)
        → IsOrder (item_dependencies items body.defs) body.order → function < length items
        → call (scoped_of number items body scopes runs) values (backwards body.order) function arguments
        ≡ judged_call (scoped_of number items body scopes runs) values (backwards body.order) function arguments }
    ensures behind { (number : ℕ) (items : List ItemDecl) (body : Body) (scopes : List Scope) (runs : Runs)
        (values : Items) (more : Items) (index : ℕ) (function : ℕ) (arguments : List Value)
        → IsOrder (item_dependencies items body.defs) body.order
        → IsTrue (is_in function (take index body.order))
        → ((item : ℕ) → IsTrue (is_in item (take index body.order)) → slice_get values item ≡ slice_get more item)
        → call (scoped_of number items body scopes runs) values (backwards (take index body.order)) function arguments
        ≡ call (scoped_of number items body scopes runs) more (backwards body.order) function arguments }
{}

/// A scope of a program is run by the rule of scopes, where a called scope, and a scope call, give what the run of that
/// scope gives on that input.
#[tactic(auto, using(crate::proofs::ScopeLaws::scopes_by_rule))]
pub fn scopes_are_run_by_the_rule(program: &Program)
    ensures { (number : ℕ) (scope : Scope) (body : Body) (input : Items)
        → slice_get program.now.decls.scopes number ≡ Some scope → slice_get program.now.bodies number ≡ Some body
        → scope_run program.now number input
        ≡ run_scoped (scoped_of number scope.items body program.now.decls.scopes (scope_run program.now)) input }
{}
