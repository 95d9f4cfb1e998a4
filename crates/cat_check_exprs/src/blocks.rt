// Blocks and declarations of scopes, line by line.
ghost use Rattle.std.specs.Prelude.{Ok, OnOk};
ghost use Rattle.cat_names.specs.Found.{Tells};
ghost use Rattle.cat_names.specs.Lines as words;
ghost use Rattle.cat_check_forms.specs.Tabled.{IsTabled, names_at};
ghost use Rattle.cat_check_exprs.specs.Saying.{added, behind};
ghost use Rattle.cat_check_exprs.specs.Sharing.{AreKnown};
ghost use Rattle.cat_check_exprs.specs.inside.Conditions.{block_line, condition_found};

use crate::{BlockCondition, KnownConditions, Said, assertion, condition_for, definition, rule};
use cat_check_forms::Here;
use cat_names::Refusal;
use cat_pos::List;
use cat_tree::{Block, Item, Node, Use};

/// Adds what a line says, in a block with a condition or none.
fn add_use(
    here: &Here,
    block: &Option<Node>,
    known: &mut KnownConditions,
    line: &Use,
    said: &mut Said,
) -> Result<(), Refusal>
    requires tabled { IsTabled here.now }
    requires known { AreKnown (names_at here.now) block.now known.old }
    ensures told { Tells (added result said.new) (behind said.old
        (words.use_lines (names_at here.now) here.now.scope block.now line.now)) }
    ensures kept { OnOk result (AreKnown (names_at here.now) block.now known.new) }
{
    match line {
        Use::Definition(lead, place, target, condition, value) => {
            let def = definition(here, block, known, lead, *place, target, condition, value)?;
            said.define(def)?;
            Ok(())
        }
        Use::Rule(lead, place, target, condition, fulfilled) => {
            let def = rule(
                here, block, known, lead, *place, target, condition, *fulfilled,
            )?;
            said.define(def)?;
            Ok(())
        }
        Use::Assertion(place, asserted) => {
            let assertion = assertion(here, *place, asserted)?;
            said.assert(assertion)?;
            Ok(())
        }
        Use::DateRound(_, _) => Ok(()),
    }
}

fn add_uses(
    here: &Here,
    block: &Option<Node>,
    known: &mut KnownConditions,
    lines: &[Use],
    said: &mut Said,
) -> Result<(), Refusal>
    requires tabled { IsTabled here.now }
    requires known { AreKnown (names_at here.now) block.now known.old }
    ensures told { Tells (added result said.new) (behind said.old
        (words.all_lines (words.use_lines (names_at here.now) here.now.scope block.now) lines.now)) }
    ensures kept { OnOk result (AreKnown (names_at here.now) block.now known.new) }
{
    for line in lines {
        add_use(here, block, known, line, said)?;
    }
    Ok(())
}

/// Adds the line that the condition of a block is, where it has one.
fn add_condition(condition: &Option<BlockCondition>, said: &mut Said) -> Result<(), Refusal>
    ensures { Tells (added result said.new) (behind said.old (Ok (block_line condition.now))) }
{
    match condition {
        None => Ok(()),
        Some(condition) => {
            let shared = condition.expr.copy()?;
            said.condition(shared)?;
            Ok(())
        }
    }
}

/// Adds the condition of a block, where it has one. It knows no parameters.
fn add_shared(
    here: &Here,
    block: &Option<Node>,
    known: &mut KnownConditions,
    said: &mut Said,
) -> Result<(), Refusal>
    requires tabled { IsTabled here.now }
    requires known { AreKnown (names_at here.now) block.now known.old }
    ensures added { Tells (added result said.new) (behind said.old
        (condition_found (names_at here.now) block.now)) }
    ensures kept { OnOk result (AreKnown (names_at here.now) block.now known.new) }
{
    let shared = condition_for(here, block, &[], known)?;
    add_condition(&shared, said)
}

/// Adds what a block says of its scope. Its condition is resolved once for all definitions with parameters of the same
/// types, and for all without.
pub fn add_block(here: &Here, block: &Block, said: &mut Said) -> Result<(), Refusal>
    requires { IsTabled here.now }
    ensures told { Tells (added result said.new) (behind said.old
        (words.block_lines (names_at here.now) here.now.scope block.now)) }
{
    let mut known = List::new(here.alloc);
    add_shared(here, &block.condition, &mut known, said)?;
    add_uses(
        here,
        &block.condition,
        &mut known,
        block.uses.as_slice(),
        said,
    )
}

/// Adds what a declaration or a block says of its scope.
pub fn add_item(here: &Here, item: &Item, said: &mut Said) -> Result<(), Refusal>
    requires { IsTabled here.now }
    ensures told { Tells (added result said.new) (behind said.old
        (words.item_lines (names_at here.now) here.now.scope item.now)) }
{
    match item {
        Item::Scope(_, _, _) => {
            said.declare()?;
            Ok(())
        }
        Item::Block(block) => add_block(here, block, said),
        Item::Structure(_, _, _) | Item::Enumeration(_, _, _) => Ok(()),
    }
}
