// How evaluations follow guards.
ghost use Rattle.std.specs.Prelude.{◌≡◌, Bool, Some, List};
ghost use Rattle.cat_value.specs.declared.ty.Ty.{Ty};
ghost use Rattle.cat_value.specs.declared.ty.Ty.TheVariants.{Boolean};
ghost use Rattle.cat_value.specs.declared.value.Value.{Value};
ghost use Rattle.cat_scope.specs.declared.expr.Expr.{Expr};
ghost use Rattle.cat_scope.specs.Names.{Names};
ghost use Rattle.cat_scope.specs.HasType.{HasType};
ghost use Rattle.cat_scope.specs.Same.{Standing};
ghost use Rattle.cat_scope.specs.Eval.{Env, eval};
ghost use Rattle.cat_sound.specs.Endings.{Allowed, AreOf, IsEnvOf};
ghost use Rattle.cat_guard.specs.Formulas.{truth};
ghost use Rattle.cat_guard.specs.Questions.{guard_of};
ghost use Rattle.cat_audit_sound.specs.Evaluations.{answered, says};

/// A condition that gives a truth value gives that of its guard, where each question is answered by what its term
/// evaluates to, or by the default.
#[tactic(auto, using(crate::proofs::GuardTells::guard_tells))]
pub fn guards_tell()
    ensures { (allowed : Allowed) (ns : Names) (env : Env) (ps : List Ty) (arguments : List Value) (g : Standing)
        (e : Expr) (b : Bool) → AreOf ns.decls ps arguments → HasType ns ps e Boolean → IsEnvOf allowed ns env e
        → says (eval env e arguments).end ≡ Some b
        → truth (answered (λ x. (eval env x arguments).end)) (guard_of ns.decls g e) ≡ b }
{}
