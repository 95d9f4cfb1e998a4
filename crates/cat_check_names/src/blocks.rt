// Names in blocks that name nothing.
ghost use Rattle.std.specs.Prelude.{◌≡◌, ◌++◌, IfOk, OnOk};
ghost use Rattle.cat_names.specs.NameFaults.{unknown_in_condition, target_faults, use_faults, block_faults};
ghost use Rattle.cat_names.specs.Unknown.{unknown_in};
ghost use Rattle.cat_names.specs.Written.{texts};
ghost use Rattle.cat_check_names.specs.Tabled.{AreTabled, known_at};

use crate::leaves::add_item_name;
use crate::{Faults, NamingContext, Texts, add_repeated, add_unknown};
use cat_pos::List;
use cat_tree::{Block, Name, Node, TargetName, Use};
use std::alloc::{AllocError, Global};

/// A condition, where there is one.
fn add_condition(
    here: &NamingContext,
    condition: &Option<Node>,
    bound: &mut Texts,
    faults: &mut Faults,
) -> Result<(), AllocError>
    requires { AreTabled here.now }
    ensures faults { OnOk result (faults.new ≡ faults.old
        ++ unknown_in_condition (known_at here.now) condition.now bound.old) }
    ensures kept { OnOk result (bound.new ≡ bound.old) }
{
    match condition {
        Some(condition) => add_unknown(here, condition, bound, faults),
        None => Ok(()),
    }
}

/// What a definition or a rule is for.
#[tactic(auto, using(crate::proofs::Added::joining))]
fn add_target(
    here: &NamingContext,
    target: &TargetName,
    faults: &mut Faults,
) -> Result<(), AllocError>
    requires { AreTabled here.now }
    ensures { OnOk result (faults.new ≡ faults.old ++ target_faults (known_at here.now) target.now) }
{
    add_item_name(here, &target.name, faults)?;
    add_repeated(here.alloc, target.params.as_slice(), faults)
}

/// The names of parameters.
fn names_of(alloc: Global, params: &[Name]) -> Result<Texts, AllocError>
    ensures { IfOk result (λ names. names ≡ texts params.now) }
{
    let mut names = List::new(alloc);
    for param in params {
        names.push(param.text.copy()?)?;
    }
    Ok(names)
}

/// A definition.
#[tactic(auto, using(crate::proofs::Added::joining))]
fn add_definition(
    here: &NamingContext,
    target: &TargetName,
    condition: &Option<Node>,
    value: &Node,
    faults: &mut Faults,
) -> Result<(), AllocError>
    requires { AreTabled here.now }
    ensures { OnOk result (faults.new ≡ faults.old ++ (target_faults (known_at here.now) target.now
        ++ unknown_in_condition (known_at here.now) condition.now (texts target.now.params)
        ++ unknown_in (known_at here.now) value.now (texts target.now.params))) }
{
    add_target(here, target, faults)?;
    let mut bound = names_of(here.alloc, target.params.as_slice())?;
    add_condition(here, condition, &mut bound, faults)?;
    add_unknown(here, value, &mut bound, faults)
}

/// A rule.
#[tactic(auto, using(crate::proofs::Added::joining))]
fn add_rule(
    here: &NamingContext,
    target: &TargetName,
    condition: &Option<Node>,
    faults: &mut Faults,
) -> Result<(), AllocError>
    requires { AreTabled here.now }
    ensures { OnOk result (faults.new ≡ faults.old ++ (target_faults (known_at here.now) target.now
        ++ unknown_in_condition (known_at here.now) condition.now (texts target.now.params))) }
{
    add_target(here, target, faults)?;
    let mut bound = names_of(here.alloc, target.params.as_slice())?;
    add_condition(here, condition, &mut bound, faults)
}

/// A line of a block.
#[tactic(auto, using(crate::proofs::Added::joining))]
fn add_use(here: &NamingContext, line: &Use, faults: &mut Faults) -> Result<(), AllocError>
    requires { AreTabled here.now }
    ensures { OnOk result (faults.new ≡ faults.old ++ use_faults (known_at here.now) line.now) }
{
    match line {
        Use::Definition(_, _, target, condition, value) => {
            add_definition(here, target, condition, value, faults)
        }
        Use::Rule(_, _, target, condition, _) => add_rule(here, target, condition, faults),
        Use::Assertion(_, asserted) => {
            let mut bound = List::new(here.alloc);
            add_unknown(here, asserted, &mut bound, faults)
        }
        Use::DateRound(_, _) => Ok(()),
    }
}

/// The names in a block that name nothing, and the names of parameters and fields in it that stand twice.
#[tactic(auto, using(crate::proofs::Added::joining))]
pub fn add_block(here: &NamingContext, block: &Block, faults: &mut Faults) -> Result<(), AllocError>
    requires { AreTabled here.now }
    ensures { OnOk result (faults.new ≡ faults.old ++ block_faults (known_at here.now) block.now) }
{
    let mut bound = List::new(here.alloc);
    add_condition(here, &block.condition, &mut bound, faults)?;
    for line in block.uses.as_slice() {
        add_use(here, line, faults)?;
    }
    Ok(())
}
