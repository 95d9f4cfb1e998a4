// How typed operators, expressions and programs end.
ghost use Rattle.cat_date.specs.declared.rounding.Rounding.{Rounding};
ghost use Rattle.cat_value.specs.declared.decls.Decls.{Decls};
ghost use Rattle.cat_scope.specs.declared.operators.UnaryOp.{UnaryOp};
ghost use Rattle.cat_scope.specs.declared.operators.BinaryOp.{BinaryOp};
ghost use Rattle.cat_scope.specs.Names.{AllHave, IsOneOf, Names, scope_items};
ghost use Rattle.cat_scope.specs.Signatures.{Signature, signatures_of, taken_by, given_by};
ghost use Rattle.cat_scope.specs.Operators.{convert, operate};
ghost use Rattle.cat_sound.specs.Settled.{IsClosed, ScopesSettled};
ghost use Rattle.std.specs.Prelude.{Bool, ℕ, IsTrue, List};
ghost use Rattle.cat_pos.specs.declared.pos.Pos.{Pos};
ghost use Rattle.cat_value.specs.declared.ty.Ty.{Ty};
ghost use Rattle.cat_value.specs.declared.value.Value.{Value};
ghost use Rattle.cat_scope.specs.declared.expr.Expr.{Expr};
ghost use Rattle.cat_sound.specs.Endings.{Allowed, AreOf, AreOutputsOf, EndsIn, IsEnvOf, IsOf, IsOutcomeOf, ResultsIn};
ghost use Rattle.cat_scope.specs.Outcomes.{deciders, scope_outcome};
ghost use Rattle.cat_value.specs.Inputs.{IsWellTyped};
ghost use Rattle.cat_scope.specs.Eval.{Env, eval};
ghost use Rattle.cat_scope.specs.HasType.{HasType};
ghost use Rattle.cat_scope.specs.declared.expr.Expr.TheViews.{out-Expr};
ghost use Rattle.cat_sound.specs.Parts.{PartsTyped};
ghost use Rattle.cat_scope.specs.Calls.{Items};
ghost use Rattle.cat_scope.specs.Running.{scope_run};

use cat_scope::Program;

/// An operator before one operand isn't stuck on a value of the type that it takes: it gives a value of its own type,
/// or a fault.
#[tactic(auto, using(crate::proofs::OperatorTypes::conversions_go_on))]
pub fn conversions_go_on()
    ensures { (ds : Decls) (p : Pos) (v : Value) (o : UnaryOp) → IsOf ds (taken_by o) v
        → ResultsIn (IsOf ds (given_by o)) (convert o p v) }
{}

/// An operator between two operands isn't stuck on values of the types of one of its signatures: it gives a value of
/// the type of that signature, or a fault.
#[tactic(auto, using(crate::proofs::OperatorTypes::operators_go_on))]
pub fn operators_go_on()
    ensures { (ds : Decls) (r : Rounding) (p : Pos) (v : Value) (w : Value) (signature : Signature) (o : BinaryOp)
        → IsOneOf signature (signatures_of o) → IsOf ds signature.left v → IsOf ds signature.right w
        → ResultsIn (IsOf ds signature.result) (operate r o p v w) }
{}

/// A well-typed expression, in an environment that has what it names, ends in a value of its type, in a fault, or in a
/// Conflict or a NoValue of a target that may stop, and decides what may be decided: what is evaluated for it does so.
#[tactic(auto, using(crate::proofs::ExprTypes::expressions_go_on))]
pub fn expressions_go_on()
    ensures { (allowed : Allowed) (ns : Names) (env : Env) (ls : List Ty) (locals : List Value) (e : Expr) (t : Ty)
        → HasType ns ls e t → IsEnvOf allowed ns env e → AreOf ns.decls ls locals
        → EndsIn allowed (IsOf ns.decls t) (eval env e locals) }
{}

/// A typed expression has typed parts, by its form: the rules of typing, read upwards.
#[tactic(auto, using(crate::proofs::PartTypes::parts_typed))]
pub fn parts_are_typed()
    ensures { (ns : Names) (ls : List Ty) (e : Expr) (t : Ty) → HasType ns ls e t → PartsTyped ns ls (out-Expr e) t }
{}

/// On each well-typed input a scope of a program has an outcome, and where it is a value each output has its type.
#[tactic(auto, using(crate::proofs::OutcomeTypes::programs_go_on))]
pub fn programs_go_on(program: &Program)
    ensures { (scope : ℕ) (input : Items) → IsWellTyped program.now.decls scope input
        → IsOutcomeOf program.now.decls (scope_items program.now.decls scope) (scope_outcome program.now scope input) }
{}

/// Where the targets of a scope, and of those that it calls, are settled but for some that may stop, a run on a
/// well-typed input ends in a value, in a fault, or in a Conflict or a NoValue of a target that may stop; and its log
/// holds only what may be decided.
#[tactic(auto, using(crate::proofs::OutcomeTypes::settled_programs))]
pub fn settled_programs_go_on(program: &Program)
    ensures { (allowed : Allowed) (within : ℕ → Bool) (scope : ℕ) (input : Items)
        → IsClosed within program.now.decls program.now.bodies
        → ScopesSettled allowed within program.now.decls program.now.bodies
        → IsTrue (within scope) → IsWellTyped program.now.decls scope input
        → EndsIn allowed (AreOutputsOf program.now.decls (scope_items program.now.decls scope))
        (scope_run program.now scope input) }
{}

/// What is decided in a run is a target of a scope that is called, at once or through others, or of the scope itself.
#[tactic(auto, using(crate::proofs::OutcomeTypes::logged_within))]
pub fn logs_tell_of_called_scopes(program: &Program)
    ensures { (within : ℕ → Bool) (scope : ℕ) (input : Items) → IsClosed within program.now.decls program.now.bodies
        → IsTrue (within scope) → IsWellTyped program.now.decls scope input
        → AllHave (λ d. IsTrue (within d.target.scope)) (deciders program.now scope input) }
{}
