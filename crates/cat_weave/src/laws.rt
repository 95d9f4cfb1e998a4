//! What the contents that a shelf tells decide.
ghost use Rattle.std.specs.Prelude.{◌≡◌, ◌≤◌, ℕ, List, length, IsSomeAnd};
ghost use Rattle.cat_weave.specs.Gathered.{Contents, Ending, Whole, gathered, limit_after};
ghost use Rattle.cat_weave.specs.Causes.{ComesTo, HasEnding};
ghost use Rattle.cat_weave.specs.declared.source.Source.{Source};

/// Where contents are told of which a source is gathered, gathering ends so whatever else files hold; and each file
/// that it comes to is told, and within its limit.
pub fn told_sources_are_gathered()
    ensures endings { (told : Contents) (main : List ℕ) (source : Source) (ending : Ending Source)
        → gathered told main ≡ Whole source → HasEnding told main ending → ending ≡ Whole source }
    ensures files { (told : Contents) (main name : List ℕ) (source : Source) (bytes : ℕ)
        → gathered told main ≡ Whole source → ComesTo told main name bytes
        → IsSomeAnd (told name) (λ content. length content ≤ limit_after bytes) }
{}
