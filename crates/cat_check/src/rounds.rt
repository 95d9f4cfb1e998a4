// How the dates of a scope are rounded.
ghost use Rattle.std.specs.Prelude.{◌≡◌, ◌++◌, [], ◌∷◌, Ok, IfOk, OnOk, flat_map};
ghost use Rattle.cat_names.specs.Bodies as words;
ghost use Rattle.cat_names.specs.Found.{Tells, where_none};

use cat_date::Rounding;
use cat_names::{Fault, Refusal};
use cat_pos::{List, Pos};
use cat_tree::{Item, Use};
use std::alloc::{AllocError, Global};

/// Positions of `date round`, each with whether it rounds up.
pub type Rounds = List<(Pos, bool)>;

fn add_use(line: &Use, rounds: &mut Rounds) -> Result<(), AllocError>
    ensures { OnOk result (rounds.new ≡ rounds.old ++ words.use_rounds line.now) }
{
    match line {
        Use::DateRound(place, up) => rounds.push((*place, *up)),
        Use::Definition(_, _, _, _, _) | Use::Rule(_, _, _, _, _) | Use::Assertion(_, _) => Ok(()),
    }
}

fn add_uses(lines: &[Use], rounds: &mut Rounds) -> Result<(), AllocError>
    ensures { OnOk result (rounds.new ≡ rounds.old ++ flat_map words.use_rounds lines.now) }
{
    for line in lines {
        add_use(line, rounds)?;
    }
    Ok(())
}

fn add_item(item: &Item, rounds: &mut Rounds) -> Result<(), AllocError>
    ensures { OnOk result (rounds.new ≡ rounds.old ++ words.item_rounds item.now) }
{
    match item {
        Item::Block(block) => add_uses(block.uses.as_slice(), rounds),
        Item::Structure(_, _, _) | Item::Enumeration(_, _, _) | Item::Scope(_, _, _) => Ok(()),
    }
}

/// How items say that dates are rounded.
pub fn rounds_in(alloc: Global, items: &[Item]) -> Result<Rounds, AllocError>
    ensures { IfOk result (λ rounds. rounds ≡ flat_map words.item_rounds items.now) }
{
    let mut rounds = List::new(alloc);
    for item in items {
        add_item(item, &mut rounds)?;
    }
    Ok(rounds)
}

fn differ(round: &(Pos, bool), other: &(Pos, bool)) -> bool
    ensures { result ≡ words.differ round.now other.now }
{
    round.1 != other.1
}

/// The rounding that the first of these says, with which all others have to agree.
pub fn rounding(rounds: &[(Pos, bool)]) -> Result<Rounding, Refusal>
    ensures { Tells result (where_none (words.contradictions rounds.now) (Ok (words.rounding_of rounds.now))) }
{
    let Some((first, rest)) = rounds.split_first() else {
        return Ok(Rounding::Refuse);
    };
    for round in rest {
        if differ(round, first) {
            return Err(Refusal::Refused(Fault::Misplaced(round.0)));
        }
    }
    Ok(way(first))
}

/// The rounding that one of these says.
fn way(round: &(Pos, bool)) -> Rounding
    ensures { result ≡ words.rounding_of (round.now ∷ []) }
{
    if round.1 {
        Rounding::Up
    } else {
        Rounding::Down
    }
}
