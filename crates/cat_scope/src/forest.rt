// The groups of a scope's definitions, and which of them except which.
ghost use Rattle.std.specs.Prelude.{◌≡◌, IsTrue};
ghost use Rattle.cat_scope.specs.Forests.{are_low};

use cat_pos::{List, Numbers};
use cat_value::Target;

/// A group of definitions of one target.
#[derive(Debug, Drop)]
pub struct ForestGroup {
    /// The numbers of its definitions among those of the scope, in source order.
    pub defs: Numbers,
    /// The numbers of the groups of the target that except this one, in their order.
    pub excepted_by: Numbers,
}

pub type ForestGroups = List<ForestGroup>;

/// A target with its groups, ordered by their first definitions.
#[derive(Debug, Drop)]
pub struct ForestTarget {
    pub target: Target,
    pub groups: ForestGroups,
}

pub type ForestTargets = List<ForestTarget>;

/// The targets of a scope. No group is above itself, and no chain of groups that except one another is longer than 256.
#[derive(Debug, Drop)]
pub struct Forest {
    pub targets: ForestTargets,
    pub ghost low: { IsTrue (are_low targets) },
}

impl Forest {
    pub fn from_parts(targets: ForestTargets) -> Forest
        requires { IsTrue (are_low targets) }
        ensures { result.targets ≡ targets }
    {
        Forest { targets }
    }
}
