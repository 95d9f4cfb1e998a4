// The first fault of a kind in the labels and exceptions of definitions.
ghost use Rattle.std.specs.Prelude.{◌≡◌, ◌<◌, length, All};
ghost use Rattle.cat_except.specs.Faults.{unknown_label, split_label, ambiguous_exception, are_alike};
ghost use Rattle.cat_except.specs.Faults.{in_defs, in_groups, in_targets};
ghost use Rattle.cat_except.specs.inside.Grouping.{defs_at, group_by, groups_at, AreGroups};
ghost use Rattle.cat_except.specs.inside.Finding.{kind_of, first_of, groups_at_each, AreGroupsOfEach};

use crate::groups::{Groups, group_except};
use cat_pos::Pos;
use cat_scope::{Def, Except};

/// Which fault is looked for.
#[derive(Clone, Copy)]
pub enum ExceptionFault {
    UnknownLabel,
    SplitLabel,
    AmbiguousException,
}

fn unknown_label(defs: &[Def], groups: &Groups, except: &Except) -> Option<Pos>
    requires { AreGroups defs.now groups.now }
    ensures { result ≡ unknown_label (groups_at defs.now groups.now.lists.items) except.now }
{
    match except {
        Except::No | Except::OnlyRoot(_) => None,
        Except::Named(_, label) => match groups.target_of(except) {
            Some(_) => None,
            None => Some(label.pos),
        },
    }
}

fn ambiguous_exception(defs: &[Def], groups: &Groups, except: &Except) -> Option<Pos>
    requires { AreGroups defs.now groups.now }
    ensures { result ≡ ambiguous_exception (groups_at defs.now groups.now.lists.items) except.now }
{
    match except {
        Except::No | Except::Named(_, _) => None,
        Except::OnlyRoot(pos) => match groups.target_of(except) {
            Some(_) => None,
            None => Some(*pos),
        },
    }
}

fn are_alike(one: &Except, other: &Except) -> bool
    ensures { result ≡ are_alike one.now other.now }
{
    match (one, other) {
        (Except::No, Except::No) | (Except::OnlyRoot(_), Except::OnlyRoot(_)) => true,
        (Except::Named(_, one), Except::Named(_, other)) => one.text == other.text,
        _ => false,
    }
}

fn split_label(first: &Except, def: &Def) -> Option<Pos>
    ensures { result ≡ split_label first.now def.now.label def.now.except }
{
    match &def.label {
        Some(label) if !are_alike(first, &def.except) => Some(label.pos),
        _ => None,
    }
}

fn fault_at(
    kind: ExceptionFault,
    defs: &[Def],
    groups: &Groups,
    list: &[u32],
    def: &Def,
) -> Option<Pos>
    requires groups { AreGroups defs.now groups.now }
    requires some { 0 < length list.now }
    requires numbers { All (λ n. n < length defs.now) list.now }
    ensures { result ≡ kind_of kind (groups_at defs.now groups.now.lists.items)
        (group_by (defs_at defs.now list.now)) def.now }
{
    match kind {
        ExceptionFault::UnknownLabel => unknown_label(defs, groups, &def.except),
        ExceptionFault::SplitLabel => split_label(group_except(defs, list), def),
        ExceptionFault::AmbiguousException => ambiguous_exception(defs, groups, &def.except),
    }
}

fn fault_in_group(kind: ExceptionFault, defs: &[Def], groups: &Groups, list: &[u32]) -> Option<Pos>
    requires groups { AreGroups defs.now groups.now }
    requires some { 0 < length list.now }
    requires numbers { All (λ n. n < length defs.now) list.now }
    ensures { result ≡ first_of (in_defs (kind_of kind) (groups_at defs.now groups.now.lists.items)
        (group_by (defs_at defs.now list.now)) (defs_at defs.now list.now)) }
{
    for &number in list {
        if let Some(pos) = fault_at(kind, defs, groups, list, &defs[number as usize]) {
            return Some(pos);
        }
    }
    None
}

fn fault_in_target(kind: ExceptionFault, defs: &[Def], groups: &Groups) -> Option<Pos>
    requires { AreGroups defs.now groups.now }
    ensures { result ≡ first_of (in_groups (kind_of kind) (groups_at defs.now groups.now.lists.items)
        (groups_at defs.now groups.now.lists.items)) }
{
    for list in &groups.lists {
        if let Some(pos) = fault_in_group(kind, defs, groups, list.as_slice()) {
            return Some(pos);
        }
    }
    None
}

/// A fault of this kind, where there is one at a definition of some target.
pub fn fault_in(kind: ExceptionFault, defs: &[Def], targets: &[Groups]) -> Option<Pos>
    requires { AreGroupsOfEach defs.now targets.now }
    ensures { result ≡ first_of (in_targets (kind_of kind) (groups_at_each defs.now targets.now)) }
{
    for groups in targets {
        if let Some(pos) = fault_in_target(kind, defs, groups) {
            return Some(pos);
        }
    }
    None
}
