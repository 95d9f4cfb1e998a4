// The positions of definitions.
ghost use Rattle.std.specs.Prelude.{◌≡◌, ◌++◌, [], OnOk, IfOk};
ghost use Rattle.cat_calc.specs.Terms.{consequences_in};
ghost use Rattle.cat_calc.specs.WellFormed.{all_terms};
ghost use Rattle.cat_lower.specs.Definitions as words;

use cat_calc::{DefaultTerm, DefaultTerms, ItemTerms, TermsOfItems};
use cat_pos::{List, Pos, Positions};
use std::alloc::{AllocError, Global};

/// Puts a position at a number, and before that wherever there is none up to it.
fn place(positions: &mut Positions, number: u32, pos: Pos) -> Result<(), AllocError>
    ensures { OnOk result (positions.new ≡ words.placed number pos positions.old) }
{
    let number = number as usize;
    while positions.len() <= number {
        positions.push(pos)?;
    }
    positions.set(number, pos);
    Ok(())
}

#[cycle(placing)]
fn place_term(positions: &mut Positions, term: &DefaultTerm) -> Result<(), AllocError>
    ensures { OnOk result (positions.new ≡ words.all_placed (consequences_in term.now) positions.old) }
{
    match term {
        DefaultTerm::Empty => Ok(()),
        DefaultTerm::Consequence(number, pos, _) => place(positions, *number, *pos),
        DefaultTerm::Default(exceptions, _, consequence) => {
            place_terms(positions, exceptions)?;
            place_term(positions, consequence.get())
        }
    }
}

#[cycle(placing)]
fn place_terms(positions: &mut Positions, terms: &DefaultTerms) -> Result<(), AllocError>
    ensures { OnOk result (positions.new ≡ words.terms_placed terms.now positions.old) }
{
    for term in terms.as_slice() {
        place_term(positions, term)?;
    }
    Ok(())
}

fn place_item(positions: &mut Positions, terms: &ItemTerms) -> Result<(), AllocError>
    ensures { OnOk result (positions.new ≡ words.terms_placed (all_terms terms.now) positions.old) }
{
    place_term(positions, &terms.own)?;
    place_terms(positions, &terms.inner)
}

/// The positions of the definitions of a scope, at their numbers.
pub fn definitions_of(alloc: Global, terms: &TermsOfItems) -> Result<Positions, AllocError>
    ensures { IfOk result (λ positions. positions ≡ words.definitions_of terms.now []) }
{
    let mut positions = List::new(alloc);
    for item in terms.as_slice() {
        place_item(&mut positions, item)?;
    }
    Ok(positions)
}
