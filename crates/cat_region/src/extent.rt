// What narrowings leave of one dimension.
ghost use Rattle.std.specs.Prelude.{◌≡◌, ◌≤◌, ◌<◌, ◌*ℤ◌, ◌^◌, pos, unsigned_abs, IsTrue};
ghost use Rattle.cat_num.specs.Whole.{Fits};
ghost use Rattle.cat_region.specs.Extents.{start, is_under, one_case, narrowed_set, narrowed_range};
ghost use Rattle.cat_region.specs.Regions.{is_dim};

use crate::cut::{Cut, Threshold};
use crate::dim::Dim;
use cat_date::{Day, number};

/// The ranks from `low` to `high`.
#[derive(Clone, Copy, PartialEq, Eq, Debug)]
pub struct Range {
    pub low: i128,
    pub high: i128,
}

/// Values by their ranks, or a set of cases, of which case k is bit k.
#[derive(Clone, Copy, PartialEq, Eq, Debug)]
pub enum Extent {
    Ranks(Range),
    Cases(u128),
}

const MOST: i128 = i64::MAX as i128;

/// The rank past which no decimal lies: twice the largest in units of 10^-9, and one more.
pub(crate) const FARTHEST: i128 = MOST * 2_000_000_000 + 1;

/// All of a dimension.
#[tactic(auto, unfolding(crate::specs::Extents::start))]
pub(crate) fn whole(dim: &Dim) -> Extent
    requires { IsTrue (is_dim dim.now) }
    ensures { result ≡ start dim.now }
{
    match *dim {
        Dim::Whole | Dim::Money => Extent::Ranks(Range {
            low: -MOST,
            high: MOST,
        }),
        Dim::Day => Extent::Ranks(Range {
            low: number(Day::first()) as i128,
            high: number(Day::last()) as i128,
        }),
        Dim::Decimal => Extent::Ranks(Range {
            low: -FARTHEST,
            high: FARTHEST,
        }),
        Dim::Truth => Extent::Ranks(Range { low: 0, high: 1 }),
        Dim::Cases(128) => Extent::Cases(u128::MAX),
        Dim::Cases(count) => Extent::Cases((1 << count) - 1),
    }
}

/// The number times a factor.
fn scaled(n: i64, factor: u64) -> i128
    requires n { Fits n }
    requires factor { factor ≤ 2_000_000_000 }
    ensures value { result ≡ n *ℤ pos factor }
    ensures bound { unsigned_abs result < 2 ^ 126 }
{
    n as i128 * factor as i128
}

/// The rank of a value that is equal to a threshold.
fn place(threshold: &Threshold) -> i128
    ensures value { result ≡ Rattle.cat_region.specs.Extents.place threshold.now }
    ensures bound { unsigned_abs result < 2 ^ 126 }
{
    match *threshold {
        Threshold::Whole(whole) => whole.get() as i128,
        Threshold::Money(money) => money.get() as i128,
        Threshold::Day(day) => number(day) as i128,
        Threshold::Decimal(frac) => scaled(frac.num(), 2_000_000_000 / frac.den() as u64),
    }
}

/// Below which rank a cut parts values.
fn limit(cut: &Cut) -> i128
    ensures value { result ≡ Rattle.cat_region.specs.Extents.limit cut.now }
    ensures bound { unsigned_abs result ≤ 2 ^ 126 }
{
    match cut {
        Cut::Below(threshold) => place(threshold),
        Cut::AtMost(threshold) => place(threshold) + 1,
        Cut::IsTrue => 1,
        Cut::IsCase(_) => 0,
    }
}

/// Whether the values with that answer are those below the limit.
fn is_under(cut: &Cut, yes: bool) -> bool
    ensures { result ≡ Rattle.cat_region.specs.Extents.is_under cut.now yes }
{
    match cut {
        Cut::IsTrue => !yes,
        _ => yes,
    }
}

/// The part of a range below the limit, or from it on.
fn narrowed_range(range: Range, limit: i128, under: bool) -> Range
    requires { unsigned_abs limit ≤ 2 ^ 126 }
    ensures { result ≡ Rattle.cat_region.specs.Extents.narrowed_range range limit under }
{
    if under {
        Range {
            low: range.low,
            high: range.high.min(limit - 1),
        }
    } else {
        Range {
            low: range.low.max(limit),
            high: range.high,
        }
    }
}

/// The set of that case alone.
fn one_case(case: u32) -> u128
    ensures { result ≡ Rattle.cat_region.specs.Extents.one_case case }
{
    if case < 128 { 1 << case } else { 0 }
}

/// The part of a set where a cut answers so.
fn narrowed_set(set: u128, cut: &Cut, yes: bool) -> u128
    ensures { result ≡ Rattle.cat_region.specs.Extents.narrowed_set set cut.now yes }
{
    match *cut {
        Cut::IsCase(case) => {
            if yes {
                set & one_case(case)
            } else {
                set & !one_case(case)
            }
        }
        _ => set,
    }
}

impl Extent {
    /// What is left where a cut answers so.
    pub(crate) fn narrowed(self, cut: &Cut, yes: bool) -> Extent
        ensures { result ≡ Rattle.cat_region.specs.Extents.narrowed self cut.now yes }
    {
        match self {
            Extent::Ranks(range) => {
                Extent::Ranks(narrowed_range(range, limit(cut), is_under(cut, yes)))
            }
            Extent::Cases(set) => Extent::Cases(narrowed_set(set, cut, yes)),
        }
    }

    /// Whether nothing is left.
    pub(crate) fn is_none(self) -> bool
        ensures { result ≡ Rattle.cat_region.specs.Extents.is_none self }
    {
        match self {
            Extent::Ranks(range) => range.high < range.low,
            Extent::Cases(set) => set == 0,
        }
    }
}
