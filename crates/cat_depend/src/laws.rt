// What holds of the scopes that an audit goes through: each law is the contract of a function.
ghost use Rattle.std.specs.Prelude.{◌≡◌, ◌<◌, ℕ, List, IsTrue, length};
ghost use Rattle.cat_scope.specs.Names.{AllHave, all_differ, is_in};
ghost use Rattle.cat_sound.specs.Settled.{IsClosed};
ghost use Rattle.cat_depend.specs.Reached.{AreReachedFrom, EndsWith, IsReached, StandBehind, calls_in};

use cat_scope::{Program, programs_are_well_formed};

/// Each scope that one of them calls is one of them, and stands in front of its caller. None stands there twice, and
/// each is reached from the audited one.
pub fn audited_scopes_have_what_they_call(program: &Program)
    ensures closed { (scope : ℕ) (scopes : List ℕ) → AreReachedFrom program.now scope scopes
        → IsClosed (λ n. is_in n scopes) program.now.decls program.now.bodies }
    ensures behind { (scope : ℕ) (scopes : List ℕ) → AreReachedFrom program.now scope scopes
        → StandBehind (calls_in program.now) scopes }
    ensures once { (scope : ℕ) (scopes : List ℕ) → AreReachedFrom program.now scope scopes
        → IsTrue (all_differ scopes) }
    ensures reached { (scope : ℕ) (scopes : List ℕ) → AreReachedFrom program.now scope scopes
        → AllHave (IsReached (calls_in program.now) scope) scopes }
    ensures numbers { (scope : ℕ) (scopes : List ℕ) → AreReachedFrom program.now scope scopes
        → AllHave (λ n. n < length program.now.bodies) scopes }
{
    programs_are_well_formed(program);
}

/// The audited scope is the last of them.
pub fn audited_scopes_end_with_the_audited_one(program: &Program)
    ensures { (scope : ℕ) (scopes : List ℕ) → scope < length program.now.bodies
        → AreReachedFrom program.now scope scopes → EndsWith scope scopes }
{
    programs_are_well_formed(program);
}
