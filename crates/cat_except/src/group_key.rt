// What the definitions of a group have in common.
ghost use Rattle.std.specs.Prelude.{◌≡◌, ℕ, List as Listed, IfOk, refl};
ghost use Rattle.cat_scope.specs.Groups.{key_at};
ghost use Rattle.cat_except.specs.inside.Keys.{coded_key};

use cat_pos::Text;
use cat_scope::{Def, Except};
use indexmap::Equivalent;
use std::alloc::{AllocError, Global};
use std::hash::{Hash, Hasher};

/// The label of a group; or that its definitions have none, and are no exceptions or one that is alone.
#[derive(Debug, Drop, PartialEq, Eq)]
pub enum GroupKey {
    Labelled(Text),
    Base,
    Alone(u32),
}

impl Hash for GroupKey {
    ghost use Rattle.cat_except.specs.inside.Keys.{key_input};
    ghost use Rattle.std.proofs.Common.{rules};
    ghost use Rattle.std.specs.Cmp.Rules.{hashing};

    ghost hash_input = { key_input };

    ghost respects_eq = { Prim.search (hashing, rules) };

    // A label is hashed as its text, by which it is looked up.
    fn hash<H: Hasher>(&self, state: &mut H) {
        match self {
            GroupKey::Labelled(text) => text.hash(state),
            GroupKey::Base => {}
            GroupKey::Alone(number) => number.hash(state),
        }
    }
}

impl Equivalent<GroupKey> for &Text {
    ghost use Rattle.cat_except.specs.inside.Keys.{is_labelled};
    ghost use Rattle.cat_except.specs.inside.Keys.{label_input};
    ghost use Rattle.std.proofs.Common.{rules};
    ghost use Rattle.std.specs.Cmp.Rules.{comparing, hashing};

    ghost equivalent = { λ label. is_labelled label.now };

    ghost respects_hash = { λ label. label_input label.now };

    ghost respects_eq = { Prim.search (comparing, hashing, rules) };

    fn equivalent(&self, key: &GroupKey) -> bool {
        match key {
            GroupKey::Labelled(text) => *self == text,
            GroupKey::Base | GroupKey::Alone(_) => false,
        }
    }
}

/// What a definition has in common with the others of its group.
pub fn key_of(alloc: Global, number: u32, def: &Def) -> Result<GroupKey, AllocError>
    ensures { IfOk result (λ key. key ≡ coded_key (key_at number def.now.label def.now.except)) }
{
    match (&def.label, &def.except) {
        (Some(label), _) => Ok(GroupKey::Labelled(label.text.copy()?)),
        (None, Except::No) => Ok(GroupKey::Base),
        (None, Except::OnlyRoot(_) | Except::Named(_, _)) => Ok(GroupKey::Alone(number)),
    }
}
