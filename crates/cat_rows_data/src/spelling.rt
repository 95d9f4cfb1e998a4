//! Dimensions and cuts as a line spells them.
ghost use Rattle.std.specs.Prelude.{◌≡◌};
ghost use Rattle.std.specs.List.{list_all};
ghost use Rattle.cat_region.specs.Regions.{is_dim};
ghost use Rattle.cat_region.specs.Points.{is_bound, is_threshold, is_cut};

use crate::{day, frac, money, whole};
use cat_num::Frac;
use cat_region::{Cut, Dim, Threshold};
use cat_rows::{Arguments, Problem};
use std::alloc::Global;

#[derive(Clone, Copy)]
enum Kind {
    Whole,
    Money,
    Day,
    Decimal,
    Truth,
    Cases,
    End,
}

const KINDS: [(&str, Kind); 7] = [
    ("whole", Kind::Whole),
    ("money", Kind::Money),
    ("day", Kind::Day),
    ("decimal", Kind::Decimal),
    ("truth", Kind::Truth),
    ("cases", Kind::Cases),
    ("|", Kind::End),
];

/// The dimensions up to the word `|`.
pub fn dims(alloc: Global, given: &mut Arguments<'_>) -> Result<Vec<Dim>, Problem> {
    let mut dims = Vec::new(alloc);
    for _ in 0..given.rest().len() {
        let dim = match given.choice(&KINDS)? {
            Kind::Whole => Dim::Whole,
            Kind::Money => Dim::Money,
            Kind::Day => Dim::Day,
            Kind::Decimal => Dim::Decimal,
            Kind::Truth => Dim::Truth,
            Kind::Cases => Dim::Cases(given.count()?),
            Kind::End => break,
        };
        dims.push(dim)?;
    }
    Ok(dims)
}

/// Whether regions have these dimensions.
pub fn are_dims(dims: &[Dim]) -> bool
    ensures { result ≡ list_all is_dim dims.now }
{
    dims.iter().all(is_dim)
}

fn is_dim(dim: &Dim) -> bool
    ensures { result ≡ is_dim dim.now }
{
    match *dim {
        Dim::Cases(count) => count <= 128,
        _ => true,
    }
}

#[derive(Clone, Copy)]
enum Question {
    Below,
    AtMost,
    IsTrue,
    IsCase,
}

const QUESTIONS: [(&str, Question); 4] = [
    ("below", Question::Below),
    ("at_most", Question::AtMost),
    ("true", Question::IsTrue),
    ("case", Question::IsCase),
];

/// A cut of a dimension.
pub fn cut(dim: &Dim, given: &mut Arguments<'_>) -> Result<Cut, Problem> {
    match given.choice(&QUESTIONS)? {
        Question::Below => Ok(Cut::Below(threshold(dim, given)?)),
        Question::AtMost => Ok(Cut::AtMost(threshold(dim, given)?)),
        Question::IsTrue => Ok(Cut::IsTrue),
        Question::IsCase => Ok(Cut::IsCase(given.count()?)),
    }
}

fn threshold(dim: &Dim, given: &mut Arguments<'_>) -> Result<Threshold, Problem> {
    match *dim {
        Dim::Whole => Ok(Threshold::Whole(whole(given)?)),
        Dim::Money => Ok(Threshold::Money(money(given)?)),
        Dim::Day => Ok(Threshold::Day(day(given)?)),
        Dim::Decimal => Ok(Threshold::Decimal(frac(given)?)),
        Dim::Truth | Dim::Cases(_) => Err(Problem::Unreadable),
    }
}

/// Whether a cut is of the kind of a dimension.
pub fn is_cut(dim: &Dim, cut: &Cut) -> bool
    ensures { result ≡ is_cut dim.now cut.now }
{
    match *cut {
        Cut::Below(threshold) => is_threshold(dim, &threshold),
        Cut::AtMost(threshold) => is_threshold(dim, &threshold),
        Cut::IsTrue => matches!(*dim, Dim::Truth),
        Cut::IsCase(_) => matches!(*dim, Dim::Cases(_)),
    }
}

fn is_threshold(dim: &Dim, threshold: &Threshold) -> bool
    ensures { result ≡ is_threshold dim.now threshold.now }
{
    match (*dim, *threshold) {
        (Dim::Whole, Threshold::Whole(_)) => true,
        (Dim::Money, Threshold::Money(_)) => true,
        (Dim::Day, Threshold::Day(_)) => true,
        (Dim::Decimal, Threshold::Decimal(frac)) => is_bound(frac),
        _ => false,
    }
}

fn is_bound(frac: Frac) -> bool
    ensures { result ≡ is_bound frac }
{
    let den = frac.den() as u64;
    1_000_000_000 % den == 0 && frac.num().unsigned_abs() as u128 <= 1_000_000_000 * den as u128
}
