// What holds of every refusal.
ghost use Rattle.std.specs.Prelude.{◌≡◌, List as Listed};
ghost use Rattle.cat_scope.specs.Groups.{Group};
ghost use Rattle.cat_except.specs.declared.refusal.ExceptRefusal.{ExceptRefusal};
ghost use Rattle.cat_except.specs.declared.refusal.ExceptRefusal.TheVariants.{Memory};
ghost use Rattle.cat_except.specs.Causes.{HasCause, MakeForest};

/// Where a refusal other than want of memory has its cause, the exceptions of a scope make no forest.
pub fn refused_scopes_make_no_forest()
    ensures { (targets : Listed (Listed Group)) (refusal : ExceptRefusal) → ¬ (refusal ≡ Memory)
        → HasCause targets refusal → ¬ MakeForest targets }
{}
