// What holds of judging: of targets, of groups and of their exceptions.
ghost use Rattle.cat_scope.specs.Names.{AllHave, is_plain};
ghost use Rattle.std.specs.Prelude.{◌≡◌, ◌↔◌, ◌<◌, ℕ, true, false, IsTrue, List, [], ◌∷◌, ◌++◌, length, map, slice_get};
ghost use Rattle.std.specs.Prelude.{Option, Some, None, Err};
ghost use Rattle.cat_value.specs.declared.value.Value.{Value};
ghost use Rattle.cat_value.specs.declared.outcome.Target.{Target};
ghost use Rattle.cat_scope.specs.declared.expr.Expr.{Expr};
ghost use Rattle.cat_scope.specs.declared.defs.Def.{Def};
ghost use Rattle.cat_scope.specs.Runs.{Run};
ghost use Rattle.cat_pos.specs.declared.pos.Pos.{Pos};
ghost use Rattle.cat_value.specs.declared.declaration.ItemDecl.{ItemDecl};
ghost use Rattle.cat_value.specs.declared.declaration.Kind.TheVariants as kind;
ghost use Rattle.cat_scope.specs.declared.stop.Stop.{Stop};
ghost use Rattle.cat_scope.specs.declared.stop.Stop.TheVariants.{NoValue};
ghost use Rattle.cat_sound.specs.Stopped.{ComesOf};
ghost use Rattle.cat_scope.specs.Calls.{Items, Scoped, call, judging_of, variable};
ghost use Rattle.cat_scope.specs.ItemValues.{item_value, passed};
ghost use Rattle.cat_scope.specs.Groups.{Group, excepts, excepting, exceptions_of};
ghost use Rattle.cat_scope.specs.Judging.{Held, Judged, judge, settle, or_else};
ghost use Rattle.cat_scope.specs.Chains.{HasNoCycle};
ghost use Rattle.cat_scope.specs.Targets.{same_target, judge_target};
ghost use Rattle.cat_scope.specs.Forests.{are_low, IsLow};
ghost use Rattle.cat_scope.specs.declared.forest.ForestTarget.{ForestTarget};

/// What a target comes to doesn't change with a definition of another target.
#[tactic(auto, using(crate::proofs::TargetLaws::own_definitions_alone))]
pub fn targets_rest_on_their_definitions()
    ensures { (value : Expr → Run Value) (target : Target) (front : List Def) (d : Def) (e : Def) (back : List Def)
        → same_target d.target target ≡ false → same_target e.target target ≡ false
        → judge_target value target (front ++ d ∷ back) ≡ judge_target value target (front ++ e ∷ back) }
{}

/// A condition has no NoValue of its own, be it a variable, an input of a called scope or a function: where one ends in
/// a NoValue, its judging met it. A called scope stops where the judging of an input or a context does, or its run, or
/// at an input that is missing, which is no condition.
#[tactic(auto, using(crate::proofs::TargetLaws::conditions_go_on))]
pub fn conditions_have_values()
    ensures variable { (scoped : Scoped) (before : List ℕ) (values : Items) (item : ℕ) (decl : ItemDecl)
        (other : Target) (there : Pos) → IsTrue (is_plain decl) → decl.condition ≡ true
        → (item_value scoped before values item None (Some decl)).end ≡ Err (NoValue other there)
        → (judging_of scoped (call scoped values before) values [] (variable scoped item)).end
        ≡ Err (NoValue other there) }
    ensures input { (target : Target) (pos : Pos) (decl : ItemDecl) (found : Option (Held Value)) (other : Target)
        (there : Pos) → decl.condition ≡ true
        → ¬ (passed target pos decl found ≡ Err (NoValue other there)) }
    ensures called { (scoped : Scoped) (before : List ℕ) (values : Items) (item : ℕ) (called : ℕ) (decl : ItemDecl)
        (stop : Stop) → decl.kind ≡ kind.Called called
        → (item_value scoped before values item None (Some decl)).end ≡ Err stop
        → ComesOf scoped before values item called decl stop }
    ensures function { (scoped : Scoped) (values : Items) (before : List ℕ) (function : ℕ) (arguments : List Value)
        (decl : ItemDecl) (other : Target) (there : Pos)
        → slice_get scoped.items function ≡ Some decl → decl.condition ≡ true
        → (call scoped values (function ∷ before) function arguments).end ≡ Err (NoValue other there)
        → (judging_of scoped (call scoped values before) values arguments (variable scoped function)).end
        ≡ Err (NoValue other there) }
{}

/// A group is judged by its rule, where no group of the target is an exception to itself through others: as the list of
/// the groups that except it and, where that is Empty, by its own definitions. This is so whatever definitions come to:
/// values, or nothing but whether they hold.
#[tactic(auto, using(crate::proofs::JudgeLaws::judging_rule))]
pub fn groups_are_judged_by_their_rule()
    ensures values { (target : Target) (groups : List Group) (own : ℕ → Judged Value) (group : ℕ)
        → HasNoCycle (exceptions_of groups) → group < length groups
        → judge target (excepts groups) own (length groups) group
        ≡ or_else
        (settle target (map (judge target (excepts groups) own (length groups)) (excepting (excepts groups) group)))
        (own group) }
    ensures truths { (target : Target) (groups : List Group) (own : ℕ → Judged (Unit {0})) (group : ℕ)
        → HasNoCycle (exceptions_of groups) → group < length groups
        → judge target (excepts groups) own (length groups) group
        ≡ or_else
        (settle target (map (judge target (excepts groups) own (length groups)) (excepting (excepts groups) group)))
        (own group) }
{}

/// The invariant of a forest says just this: no group is above itself, and no chain is longer than 256.
#[tactic(auto, using(crate::proofs::ForestLaws::are_low_says))]
pub fn forests_have_short_chains()
    ensures { (targets : List ForestTarget) → IsTrue (are_low targets) ↔ AllHave IsLow targets }
{}
