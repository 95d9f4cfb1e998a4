// The keys of atoms.
ghost use Rattle.std.specs.Prelude.{◌≡◌, ◌++◌, IfOk};
ghost use Rattle.cat_audit_keys.specs.Atoms.{atom_key, cut_numbers, threshold_numbers};

use crate::form::Spelling;
use crate::key::Key;
use crate::literal::sign;
use cat_date::number;
use cat_pos::List;
use cat_region::{Cut, Threshold};
use std::alloc::{AllocError, Global};

/// Behind a spelling what a value is compared with.
fn with_threshold(numbers: Spelling, threshold: Threshold) -> Result<Spelling, AllocError>
    ensures { IfOk result (λ longer. longer ≡ numbers ++ threshold_numbers threshold) }
{
    let mut numbers = numbers;
    let (kind, value, den) = match threshold {
        Threshold::Whole(whole) => (0, whole.get(), 1),
        Threshold::Money(money) => (1, money.get(), 1),
        Threshold::Day(day) => (2, number(day), 1),
        Threshold::Decimal(frac) => (3, frac.num(), frac.den() as u64),
    };
    numbers.push(kind)?;
    numbers.push(sign(value))?;
    numbers.push(value.unsigned_abs())?;
    numbers.push(den)?;
    Ok(numbers)
}

/// Behind a spelling a cut.
fn with_cut(numbers: Spelling, cut: &Cut) -> Result<Spelling, AllocError>
    ensures { IfOk result (λ longer. longer ≡ numbers ++ cut_numbers cut.now) }
{
    let mut numbers = numbers;
    match cut {
        Cut::Below(threshold) => {
            numbers.push(0)?;
            with_threshold(numbers, *threshold)
        }
        Cut::AtMost(threshold) => {
            numbers.push(1)?;
            with_threshold(numbers, *threshold)
        }
        Cut::IsTrue => {
            numbers.push(2)?;
            Ok(numbers)
        }
        Cut::IsCase(case) => {
            numbers.push(3)?;
            numbers.push(*case as u64)?;
            Ok(numbers)
        }
    }
}

/// The key of an atom: a cut of the term of that number.
pub fn atom_key(alloc: Global, term: usize, cut: &Cut) -> Result<Key, AllocError>
    ensures { IfOk result (λ key. key ≡ atom_key term cut.now) }
{
    let mut numbers = List::new(alloc);
    numbers.push(term as u64)?;
    Ok(Key::new(with_cut(numbers, cut)?))
}
