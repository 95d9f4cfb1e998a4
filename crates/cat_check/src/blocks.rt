// The names of the scopes that blocks call.
ghost use Rattle.std.specs.Prelude.{◌≡◌, ◌++◌, OnOk, flat_map};
ghost use Rattle.cat_names.specs.ScopeWords.{condition_words, item_words, use_words};
ghost use Rattle.cat_tree.specs.declared.program.Item.TheVariants as item;

use crate::words::add_words;
use cat_tree::{Block, Names, Node, Use};
use std::alloc::AllocError;

fn add_condition(condition: &Option<Node>, words: &mut Names) -> Result<(), AllocError>
    ensures { OnOk result (words.new ≡ words.old ++ condition_words condition.now) }
{
    match condition {
        Some(node) => add_words(node, words),
        None => Ok(()),
    }
}

fn add_line(line: &Use, words: &mut Names) -> Result<(), AllocError>
    ensures { OnOk result (words.new ≡ words.old ++ use_words line.now) }
{
    match line {
        Use::Definition(_, _, _, condition, consequence) => {
            add_condition(condition, words)?;
            add_words(consequence, words)?;
            Ok(())
        }
        Use::Rule(_, _, _, condition, _) => add_condition(condition, words),
        Use::Assertion(_, condition) => add_words(condition, words),
        Use::DateRound(_, _) => Ok(()),
    }
}

fn add_lines(lines: &[Use], words: &mut Names) -> Result<(), AllocError>
    ensures { OnOk result (words.new ≡ words.old ++ flat_map use_words lines.now) }
{
    for line in lines {
        add_line(line, words)?;
    }
    Ok(())
}

/// Adds the names of the scopes that a block calls, in source order.
pub fn add_block(block: &Block, words: &mut Names) -> Result<(), AllocError>
    ensures { OnOk result (words.new ≡ words.old ++ item_words (item.Block block.now)) }
{
    add_condition(&block.condition, words)?;
    add_lines(block.uses.as_slice(), words)
}
