// What holds of values that are given.
ghost use Rattle.cat_value.specs.declared.outcome.Outcome.TheVariants as outcome;
ghost use Rattle.cat_scope.specs.Names.{is_in, is_plain, scope_items};
ghost use Rattle.cat_value.specs.Inputs.{is_output};
ghost use Rattle.std.specs.Prelude.{◌≡◌, ◌<◌, ℕ, IsTrue, IfOk, List, [], length, take, drop, slice_get};
ghost use Rattle.std.specs.Prelude.{Option, None, Some, Ok};
ghost use Rattle.cat_value.specs.declared.value.Value.{Value};
ghost use Rattle.cat_value.specs.declared.declaration.ItemDecl.{ItemDecl};
ghost use Rattle.cat_scope.specs.Runs.{gives, and_then};
ghost use Rattle.cat_scope.specs.Outcomes.{scope_outcome};
ghost use Rattle.cat_scope.specs.Calls.{Scoped, Items, variable};
ghost use Rattle.cat_scope.specs.Running.{backwards, entry_at, no_values, run_items, run_scoped};
ghost use Rattle.cat_scope.specs.ItemValues.{item_value};
ghost use Rattle.cat_sound.specs.Given.{HasValue, IsLogged, JudgedAt, output_number, values_at};

use cat_scope::Program;

/// What is given stands as it is, a context's value too: it is the item's value, it has this value in the environment
/// of each item behind it in the order, and the run of the whole order goes through these environments.
#[tactic(auto, using(crate::proofs::GivenValues::given_stands, crate::proofs::GivenValues::run_through))]
pub fn given_values_stand()
    ensures alone { (scoped : Scoped) (before : List ℕ) (values : Items) (item : ℕ) (given : Value)
        (decl : Option ItemDecl)
        → item_value scoped before values item (Some given) decl ≡ gives (Some given) }
    ensures behind { (scoped : Scoped) (input : Items) (index : ℕ) (item : ℕ) (given : Value)
        → item < length scoped.items → IsTrue (is_in item (take index scoped.order))
        → entry_at item input ≡ Some given
        → IfOk (values_at scoped input index).end (HasValue item given) }
    ensures through { (scoped : Scoped) (input : Items) (index : ℕ)
        → run_items scoped input [] (no_values scoped.items) scoped.order
        ≡ and_then (values_at scoped input index)
        (λ values. run_items scoped input (backwards (take index scoped.order)) values
        (drop index scoped.order)) }
{}

/// A given output has its value in the outcome.
#[tactic(auto, using(crate::proofs::GivenValues::given_outputs_stand))]
pub fn given_outputs_stand(program: &Program)
    ensures { (scope : ℕ) (input : Items) (item : ℕ) (decl : ItemDecl) (given : Value) (outputs : List Value)
        → slice_get (scope_items program.now.decls scope) item ≡ Some decl → IsTrue (is_output decl.kind)
        → entry_at item input ≡ Some given
        → scope_outcome program.now scope input ≡ Some (outcome.Value outputs)
        → slice_get outputs (output_number (scope_items program.now.decls scope) item) ≡ Some given }
{}

/// A run that ends in a value has given each item of the order what it comes to, in the values of its index.
#[tactic(auto, using(crate::proofs::RunParts::each_judged))]
pub fn each_item_is_judged()
    ensures { (scoped : Scoped) (input : Items) (outputs : List Value) (index : ℕ) (item : ℕ)
        → (run_scoped scoped input).end ≡ Ok outputs → slice_get scoped.order index ≡ Some item
        → JudgedAt scoped input index item }
{}

/// In a run that ends in a value each variable that has no given value is judged, and the log tells what came of it.
#[tactic(auto, using(crate::proofs::DecidedLaws::each_logged))]
pub fn each_variable_is_logged()
    ensures { (scoped : Scoped) (input : Items) (outputs : List Value) (index : ℕ) (item : ℕ) (decl : ItemDecl)
        → (run_scoped scoped input).end ≡ Ok outputs
        → slice_get scoped.order index ≡ Some item → slice_get scoped.items item ≡ Some decl
        → IsTrue (is_plain decl) → entry_at item input ≡ None
        → IsLogged (variable scoped item) (run_scoped scoped input).log }
{}
