// Which of what is left of a dimension is its point.
ghost use Rattle.std.specs.Prelude.{◌≡◌, ◌<◌, ◌≤◌, pos, neg_ℤ, int_lt, false, unsigned_abs};
ghost use Rattle.cat_num.specs.Whole.{Fits, largest};
ghost use Rattle.cat_num.specs.Frac.{lowest};
ghost use Rattle.cat_region.specs.Extents.{farthest, is_none};
ghost use Rattle.cat_region.specs.Chosen.{decimal_parts};
ghost use Rattle.cat_region.specs.inside.Parts.{IsWithin, IsEnd, IsPart};

use crate::dim::Dim;
use crate::extent::{Extent, FARTHEST, Range};
use crate::point::Point;
use cat_date::Day;
use cat_num::{Frac, Money, Whole};

/// How many ranks make 1: two for each unit of 10^-9. A rank is so many parts of 1.
const ONE: u64 = 2_000_000_000;

/// The number of a range nearest to 0.
fn nearest(range: Range) -> i64
    requires within { IsWithin (neg_ℤ (pos largest)) (pos largest) range }
    requires some { int_lt range.high range.low ≡ false }
    ensures value { result ≡ Rattle.cat_region.specs.Chosen.nearest range }
    ensures fits { Fits result }
{
    range.high.min(0).max(range.low) as i64
}

/// Whether a rank is that of a whole number of units.
fn is_even(rank: i128) -> bool
    ensures { result ≡ Rattle.cat_region.specs.Chosen.is_even rank }
{
    rank.unsigned_abs() % 2 == 0
}

/// A decimal of a range neither of whose ends is a bound that is admitted, as numerator and denominator.
fn inner_parts(range: Range) -> (i128, u64)
    requires low { IsEnd (neg_ℤ (pos farthest)) range.low }
    requires high { IsEnd (pos farthest) range.high }
    ensures { result ≡ Rattle.cat_region.specs.Chosen.inner_parts range }
{
    let Range { low, high } = range;
    if high >= FARTHEST {
        (low + (ONE - 1) as i128, ONE)
    } else if low <= -FARTHEST {
        (high - (ONE - 1) as i128, ONE)
    } else {
        (low + high, 2 * ONE)
    }
}

/// A decimal of a range, as numerator and denominator: 0, else the lower bound, else the upper one, where these are
/// admitted, else one inside.
fn decimal_parts(range: Range) -> (i128, u64)
    requires low { IsEnd (neg_ℤ (pos farthest)) range.low }
    requires high { IsEnd (pos farthest) range.high }
    ensures { result ≡ decimal_parts range }
{
    if range.low <= 0 && 0 <= range.high {
        (0, 1)
    } else if is_even(range.low) {
        (range.low, ONE)
    } else if is_even(range.high) {
        (range.high, ONE)
    } else {
        inner_parts(range)
    }
}

/// The fraction `num / den` in lowest terms, which is known to fit.
fn fraction(num: i128, den: u64) -> Frac
    requires num { Fits num }
    requires some { 0 < den }
    requires den { den ≤ largest }
    ensures { result ≡ lowest num den }
{
    Frac::new(num, den as i128).unwrap()
}

/// A decimal of a range.
fn decimal_in(range: Range) -> Frac
    requires low { IsEnd (neg_ℤ (pos farthest)) range.low }
    requires high { IsEnd (pos farthest) range.high }
    requires some { int_lt range.high range.low ≡ false }
    ensures { result ≡ Rattle.cat_region.specs.Chosen.decimal_in range }
{
    let (num, den) = decimal_parts(range);
    fraction(num, den)
}

/// One of the values of a dimension of which this is left.
pub(crate) fn point_in(dim: &Dim, left: Extent) -> Point
    requires part { IsPart dim.now left }
    requires some { is_none left ≡ false }
    ensures { result ≡ Rattle.cat_region.specs.Chosen.point_in dim.now left }
{
    let range = match left {
        Extent::Ranks(range) => range,
        Extent::Cases(set) => return Point::Case(set.trailing_zeros()),
    };
    match *dim {
        Dim::Whole => Point::Whole(Whole::new(nearest(range)).unwrap()),
        Dim::Money => Point::Money(Money::new(nearest(range)).unwrap()),
        Dim::Day => Point::Day(Day::from_number(range.low as i64)),
        Dim::Decimal => Point::Decimal(decimal_in(range)),
        Dim::Truth | Dim::Cases(_) => Point::Truth(range.low > 0),
    }
}
