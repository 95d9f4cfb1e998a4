// The table of a scope: what its guards ask, and the guards of each target.
ghost use Rattle.std.specs.Prelude.{◌≡◌, IsTrue};
ghost use Rattle.cat_guard.specs.Soundness.{is_sound};

use crate::{GuardDefs, GuardGroups};
use cat_pos::{List, Numbers, Pos, Text};
use cat_region::{Cut, Dim};
use cat_scope::Expr;
use cat_value::Target;

/// An input variable, or a part of one: the item, and the numbers of the fields that lead to the part.
#[derive(Debug, Drop)]
pub struct InputPath {
    pub item: u32,
    pub fields: Numbers,
}

/// An expression that a condition compares, or a condition that is not taken apart further.
#[derive(Debug, Drop)]
pub struct Term {
    /// As it first appears.
    pub expr: Expr,
    /// The item whose definition it first appears in, and how many parameters that has.
    pub function: u32,
    pub params: u32,
    /// Where the term is free: the input that it is, or the part of one.
    pub path: Option<InputPath>,
    pub dim: Dim,
    /// The position of the first token of its first appearance.
    pub pos: Pos,
}

pub type Terms = List<Term>;

/// A cut of a term, which is named by its number.
#[derive(Clone, Copy, PartialEq, Eq, Debug)]
pub struct Atom {
    pub term: usize,
    pub cut: Cut,
}

pub type Atoms = List<Atom>;

/// A target with the guards of its definitions.
#[derive(Debug, Drop)]
pub struct TableTarget {
    pub target: Target,
    /// `x`, or `t.x` for an input or a context of a called scope.
    pub name: Text,
    /// Whether it is a function.
    pub function: bool,
    pub may_be_empty: bool,
    /// The position of the item's name in its declaration.
    pub pos: Pos,
    /// In source order.
    pub defs: GuardDefs,
    /// Ordered by their first definitions.
    pub groups: GuardGroups,
    /// The numbers of the groups that are no exceptions.
    pub roots: Numbers,
}

pub type TableTargets = List<TableTarget>;

/// The guards of a scope. Its atoms name its terms, and each cut is of the kind of its term's dimension; its guards
/// name its atoms; no group is above itself, and no chain of groups is longer than 256.
#[derive(Debug, Drop)]
pub struct Table {
    /// The number of the scope, and its name.
    pub scope: u32,
    pub name: Text,
    pub terms: Terms,
    pub atoms: Atoms,
    /// In the order of the forest.
    pub targets: TableTargets,
    pub ghost sound: { IsTrue (is_sound terms atoms targets) },
}

/// Tables of scopes, of which one calls those before it alone.
pub type ScopeTables = List<Table>;

impl Table {
    pub fn from_parts(
        scope: u32,
        name: Text,
        terms: Terms,
        atoms: Atoms,
        targets: TableTargets,
    ) -> Table
        requires { IsTrue (is_sound terms atoms targets) }
        ensures scope { result.scope ≡ scope }
        ensures name { result.name ≡ name }
        ensures terms { result.terms ≡ terms }
        ensures atoms { result.atoms ≡ atoms }
        ensures targets { result.targets ≡ targets }
    {
        Table {
            scope,
            name,
            terms,
            atoms,
            targets,
        }
    }
}
