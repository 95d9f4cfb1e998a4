// The terms of definitions, of groups and of targets.
ghost use Rattle.std.specs.Prelude.{◌≡◌, ◌<◌, true, ℕ, All, IfOk, length, map};
ghost use Rattle.cat_pos.specs.declared.limits.TheConstants.{ENTRIES_BOUND};
ghost use Rattle.cat_scope.specs.Groups.{exceptions_of, roots_of};
ghost use Rattle.cat_scope.specs.Chains.{is_within, longest_chain};
ghost use Rattle.cat_scope.specs.Forests.{forest_of_groups};
ghost use Rattle.cat_calc.specs.Desugared.{KeepsJudging};
ghost use Rattle.cat_sound.specs.Roots.{is_first_root};
ghost use Rattle.cat_calc.specs.inside.Numbered.{numbered_at, groups_in};
ghost use Rattle.cat_calc.specs.inside.Terms.{definition_term, one_of, group_term, target_term, HasLowGroups};

use crate::{DefaultTerm, DefaultTerms, Justification};
use cat_pos::{Boxed, List, Numbers};
use cat_scope::{Def, Except, ForestGroup, ForestTarget};
use std::alloc::{AllocError, Global};

/// The most groups of a chain.
const LONGEST_CHAIN: u32 = 256;

/// A definition: its consequence, where its condition holds.
fn definition_term(alloc: Global, number: u32, def: &Def) -> Result<DefaultTerm, AllocError>
    ensures { IfOk result (λ term. term ≡ definition_term (number, def.now)) }
{
    let justification = match &def.condition {
        Some(condition) => Justification::Where(condition.copy()?),
        None => Justification::Always,
    };
    let consequence = def.consequence.copy()?;
    let consequence = Boxed::new(
        alloc,
        DefaultTerm::Consequence(number, def.pos, consequence),
    )?;
    Ok(DefaultTerm::Default(List::new(alloc), justification, consequence))
}

/// What holds where one of some terms does, and nothing else.
pub fn one_of(alloc: Global, terms: DefaultTerms) -> Result<DefaultTerm, AllocError>
    ensures { IfOk result (λ term. term ≡ one_of terms) }
{
    let nothing = Boxed::new(alloc, DefaultTerm::Empty)?;
    Ok(DefaultTerm::Default(terms, Justification::Never, nothing))
}

/// The definitions of a group, of which one may hold.
#[tactic(auto, using(crate::proofs::Numbers::next_numbered))]
fn own_term(alloc: Global, defs: &[Def], numbers: &[u32]) -> Result<DefaultTerm, AllocError>
    requires { All (λ n. n < length defs.now) numbers.now }
    ensures { IfOk result (λ term. term ≡ one_of (map definition_term (numbered_at defs.now numbers.now))) }
{
    let mut terms = List::new(alloc);
    for &number in numbers {
        terms.push(definition_term(alloc, number, &defs[number as usize])?)?;
    }
    one_of(alloc, terms)
}

/// A group: the groups that except it and, where none of them holds, its own definitions. No chain of groups that
/// begins with it has more than `room`.
#[cycle(group)]
fn group_term(
    alloc: Global,
    defs: &[Def],
    forest: &ForestTarget,
    room: u32,
    number: u32,
) -> Result<DefaultTerm, AllocError>
    requires stands { forest.now.groups ≡ forest_of_groups (groups_in defs.now forest.now.target) }
    requires there { number < length forest.now.groups }
    requires short { is_within (exceptions_of (groups_in defs.now forest.now.target)) room number ≡ true }
    ensures { IfOk result (λ term. term ≡ group_term (groups_in defs.now forest.now.target) room number) }
{
    let group = forest.groups.at(number as usize);
    let exceptions = group_terms(alloc, defs, forest, room - 1, group.excepted_by.as_slice())?;
    let own = own_term(alloc, defs, group.defs.as_slice())?;
    let own = Boxed::new(alloc, own)?;
    Ok(DefaultTerm::Default(exceptions, Justification::Always, own))
}

/// Groups of a target, in the order of the list.
#[cycle(group)]
fn group_terms(
    alloc: Global,
    defs: &[Def],
    forest: &ForestTarget,
    room: u32,
    numbers: &[u32],
) -> Result<DefaultTerms, AllocError>
    requires stands { forest.now.groups ≡ forest_of_groups (groups_in defs.now forest.now.target) }
    requires there { All (λ n. n < length forest.now.groups) numbers.now }
    requires short { All (λ n. is_within (exceptions_of (groups_in defs.now forest.now.target)) room n ≡ true)
        numbers.now }
    ensures { IfOk result (λ terms. terms ≡ map (group_term (groups_in defs.now forest.now.target) room) numbers.now) }
{
    let mut terms = List::new(alloc);
    for &number in numbers {
        terms.push(group_term(alloc, defs, forest, room, number)?)?;
    }
    Ok(terms)
}

/// Whether a group is no exception: it is what its first definition is.
fn is_root(defs: &[Def], group: &ForestGroup) -> bool
    requires { All (λ n. n < length defs.now) group.now.defs }
    ensures { result ≡ is_first_root defs.now group.now.defs }
{
    match group.defs.as_slice().first() {
        Some(&first) => matches!(defs[first as usize].except, Except::No),
        None => false,
    }
}

/// The groups of a target that are no exceptions.
fn roots(alloc: Global, defs: &[Def], forest: &ForestTarget) -> Result<Numbers, AllocError>
    requires few { length forest.now.groups < ENTRIES_BOUND }
    requires stands { forest.now.groups ≡ forest_of_groups (groups_in defs.now forest.now.target) }
    ensures { IfOk result (λ roots. roots ≡ roots_of (groups_in defs.now forest.now.target)) }
{
    let mut roots = List::new(alloc);
    for (number, group) in forest.groups.as_slice().iter().enumerate() {
        if is_root(defs, group) {
            roots.push(number as u32)?;
        }
    }
    Ok(roots)
}

/// A target, by the groups of its definitions: its roots, of which one may hold. It shares its expressions.
#[tactic(auto, using(crate::proofs::TargetTerms::keeps_judging))]
pub fn target_term(
    alloc: Global,
    defs: &[Def],
    forest: &ForestTarget,
) -> Result<DefaultTerm, AllocError>
    requires few { length forest.now.groups < ENTRIES_BOUND }
    requires stands { forest.now.groups ≡ forest_of_groups (groups_in defs.now forest.now.target) }
    requires low { HasLowGroups (groups_in defs.now forest.now.target) }
    ensures term { IfOk result (λ term. term ≡ target_term (groups_in defs.now forest.now.target)) }
    ensures judged { IfOk result (KeepsJudging defs.now forest.now.target) }
{
    let roots = roots(alloc, defs, forest)?;
    let terms = group_terms(alloc, defs, forest, LONGEST_CHAIN, roots.as_slice())?;
    one_of(alloc, terms)
}
