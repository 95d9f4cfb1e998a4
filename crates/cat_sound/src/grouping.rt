// How definitions are parted into groups, in which order a conflict names them, and that forests have no cycle.
ghost use Rattle.std.specs.Prelude.{◌≡◌, ◌↔◌, ℕ, List, Some, Err, length, slice_get};
ghost use Rattle.cat_order.specs.Order.{times};
ghost use Rattle.cat_pos.specs.declared.pos.Pos.{Pos};
ghost use Rattle.cat_value.specs.declared.value.Value.{Value};
ghost use Rattle.cat_value.specs.declared.outcome.Target.{Target};
ghost use Rattle.cat_scope.specs.declared.stop.Stop.TheVariants.{Conflict};
ghost use Rattle.cat_scope.specs.declared.defs.Body.{Body};
ghost use Rattle.cat_scope.specs.declared.programs.Program.{Program as WholeProgram};
ghost use Rattle.cat_scope.specs.Names.{AllHave, IsOneOf, scope_items};
ghost use Rattle.cat_scope.specs.Groups.{Numbered, groups_of, exceptions_of};
ghost use Rattle.cat_scope.specs.Judging.{Held, alone, in_source_order, positions_in};
ghost use Rattle.cat_scope.specs.Targets.{defs_from};
ghost use Rattle.cat_scope.specs.Chains.{HasNoCycle};
ghost use Rattle.cat_scope.specs.Forests.{StandsFor, targets_of};
ghost use Rattle.cat_sound.specs.Grouped.{AreParted, AreRising, AreJudgedByRule, numbers_held};

use cat_scope::Forest;

/// Each definition is in the one group of its key, a group has its definitions in their order, and the groups stand by
/// their first definitions.
pub fn groups_part_their_definitions()
    ensures { (defs : List Numbered) → AreParted defs }
{}

/// A conflict names the positions of the definitions that hold, each as often as it holds, by their rising numbers.
#[tactic(auto, using(crate::proofs::HeldLaws::held_laws))]
pub fn conflicts_name_what_holds()
    ensures same { (hs : List (Held Value)) (h : Held Value) → IsOneOf h (in_source_order hs) ↔ IsOneOf h hs }
    ensures counts { (hs : List (Held Value)) (n : ℕ)
        → times (numbers_held (in_source_order hs)) n ≡ times (numbers_held hs) n }
    ensures rising { (hs : List (Held Value)) → AreRising (numbers_held (in_source_order hs)) }
    ensures named { (target : Target) (other : Target) (hs : List (Held Value)) (positions : List Pos)
        → alone target hs ≡ Err (Conflict other positions) → positions ≡ positions_in (in_source_order hs) }
{}

/// A forest of a scope of a program has no cycle, so that each group of its targets is judged by its rule.
pub fn forests_are_judged_by_their_rule(forest: &Forest)
    ensures acyclic { (program : WholeProgram) (scope : ℕ) (body : Body) → slice_get program.bodies scope ≡ Some body
        → StandsFor program scope forest.now.targets
        → AllHave (λ target. HasNoCycle (exceptions_of (groups_of (defs_from target 0 body.defs))))
        (targets_of program.decls scope (scope_items program.decls scope) body.order) }
    ensures judged { (program : WholeProgram) (scope : ℕ) (body : Body) → slice_get program.bodies scope ≡ Some body
        → StandsFor program scope forest.now.targets
        → AllHave (λ target. AreJudgedByRule target (groups_of (defs_from target 0 body.defs)))
        (targets_of program.decls scope (scope_items program.decls scope) body.order) }
{}
